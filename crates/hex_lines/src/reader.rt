// A reader that walks the caller's text frame by frame: the text and a position in it. Every method is thin, over a function of the text and the
// position. Who walks a text holds one reader from the first line to the last, and lays each line on a sheet by `decode_next`; a line that is
// taken alone is that part of the text.
ghost use Rattle.std.specs.Prelude.{◌≡◌};
ghost use Rattle.hex_lines.specs.Lines.{line_at};
ghost use Rattle.hex_lines.specs.Decoding.{Room, Passes};

use super::decode::decode_line;
use super::lines::line_at;

#[derive(Clone, Copy)]
pub struct Reader<'a> {
    pub text: &'a [u8],
    pub at: usize,
}

impl<'a> Reader<'a> {
    // A reader that stands at a place of a text.
    pub fn new(text: &'a [u8], at: usize) -> Reader<'a>
        ensures { (result.text ≡ text.entry) × (result.at ≡ at) }
    {
        Reader { text, at }
    }

    // Where it stands.
    pub fn position(self) -> usize
        ensures { result ≡ self.entry.at }
    {
        self.at
    }

    // The line that begins where it stands.
    pub fn next_line(self) -> &'a [u8]
        ensures { result.now ≡ line_at self.entry.text.now self.entry.at }
    {
        line_at(self.text, self.at)
    }

    // The next line is laid on the sheet, from place `to` on, and the reader comes back behind it: where it stood, where that is no line of digits.
    pub fn decode_next(self, sheet: &mut [u8], to: usize) -> Reader<'a>
        requires { Room self.text.now self.at sheet.old to }
        ensures { (result.text ≡ self.entry.text) × Passes self.entry.text.now self.entry.at sheet.old to sheet.new result.at }
    {
        let at = behind_line(self.text, self.at, sheet, to);
        Reader { at, ..self }
    }
}

// The line at `at` is laid on the sheet: the place behind it, or `at` where it is no line of digits.
fn behind_line(text: &[u8], at: usize, sheet: &mut [u8], to: usize) -> usize
    requires { Room text.now at sheet.old to }
    ensures { Passes text.now at sheet.old to sheet.new result }
{
    match decode_line(text, at, sheet, to) {
        Some(e) => e + 1,
        None => at,
    }
}

// The line of the text that begins at `at`.
pub fn line_from<'a>(text: &'a [u8], at: usize) -> &'a [u8]
    ensures { result.now ≡ line_at text.now at }
{
    Reader::new(text, at).next_line()
}
