// The first reading of a text: each line is tested 1 to 4 in turn, then a plan's step count.
ghost use Rattle.std.specs.Prelude.{◌≡◌, ◌+◌, ◌<◌, ◌≤◌, length};
ghost use Rattle.first_reading.specs.First.{steps_right, empty_text, sheet_size, SheetRoom, Lays, LinesLaid, FirstLaid};
ghost use Rattle.first_reading.specs.Reading.{Accepted, as_reading};
ghost use Rattle.line_steps.specs.Faults.{text_number};
ghost use Rattle.first_reading.specs.Stands.{reading_of};
ghost use Rattle.hex_lines.specs.Digits.{short_at};

use hex_lines::below::short_at;
use hex_lines::reader::Reader;
use line_steps::below::{Text, frame_at, text_number};
use line_steps::stand::{Stand, after_line, at_start};

// What an accepted text has: how many lines, and how many of them are atoms or rows.
#[derive(Clone, Copy, PartialEq, Eq)]
pub struct Lines {
    pub count: usize,
    pub counted: usize,
}

// Why a text is refused: the number of the first test that it fails, and the line, from 1; 0 where no line is to blame.
#[derive(Clone, Copy, PartialEq, Eq)]
pub struct Fault {
    pub number: u8,
    pub line: usize,
}

// Why an answer is refused: the number, the text and the line.
#[derive(Clone, Copy, PartialEq, Eq)]
pub struct Refusal {
    pub number: u8,
    pub text: Text,
    pub line: usize,
}

impl Fault {
    // The refusal of an answer, where the text of that name is at fault.
    pub fn of(self, text: Text) -> Refusal
        ensures { result ≡ record { number = self.number; text = text; line = self.line } }
    {
        Refusal {
            number: self.number,
            text,
            line: self.line,
        }
    }
}

impl Refusal {
    // The number of the text: 0 the query, 1 the plan, 2 the table.
    pub fn text_number(self) -> u8
        ensures { result ≡ text_number self.text }
    {
        text_number(self.text)
    }
}

fn reading_of(s: Stand) -> Result<Lines, Fault>
    requires { s.n ≤ 65536 }
    ensures { as_reading result ≡ reading_of s }
{
    if s.fault == 0 {
        Ok(Lines {
            count: s.n,
            counted: s.c,
        })
    } else {
        Err(Fault {
            number: s.fault,
            line: s.n + 1,
        })
    }
}

// The lines in turn, by one reader from the first to the last: each is laid on the sheet, behind those before it, and tested there.
fn first_lines(t: Text, text: &[u8], sheet: &mut [u8]) -> Result<Lines, Fault>
    requires text_len_bound { length text.now ≤ 65536 }
    requires sheet_room { SheetRoom text.now sheet.old }
    ensures { LinesLaid t text.now sheet.old sheet.new (as_reading result) }
{
    let mut r = Reader::new(text, 0);
    let mut s = at_start(text.len());
    while s.at < s.end {
        r = r.decode_next(sheet, s.to);
        s = after_line(t, sheet, s, r.position());
    }
    reading_of(s)
}

// The steps that a plan's header gives.
fn steps_say(header: &[u8]) -> usize
    ensures { (result ≡ short_at header.now 4) × (result < 65536) }
{
    usize::from(short_at(header, 4))
}

// How many bytes of the sheet the frames of an accepted text have, that has n lines and m bytes.
pub fn sheet_size(m: usize, n: usize) -> usize
    ensures { result ≡ sheet_size m n }
{
    m.saturating_sub(n) / 2
}

// A plan of those lines has as many steps as its header says.
fn steps_right(t: Text, text: &[u8], sheet: &[u8], lines: Lines) -> Result<Lines, Fault>
    requires { Lays text.now sheet.now sheet.now (Accepted lines.count lines.counted) }
    ensures { as_reading result ≡ steps_right t text.now (Accepted lines.count lines.counted) }
{
    match t {
        Text::Query | Text::Table => Ok(lines),
        Text::Plan => {
            let size = sheet_size(text.len(), lines.count);
            if steps_say(frame_at(&sheet[..size], 0)) + 1 == lines.count {
                return Ok(lines);
            }
            Err(Fault { number: 3, line: 1 })
        }
    }
}

fn empty_text(t: Text) -> Result<Lines, Fault>
    ensures { as_reading result ≡ empty_text t }
{
    match t {
        Text::Query | Text::Plan => Err(Fault { number: 2, line: 0 }),
        Text::Table => Ok(Lines {
            count: 0,
            counted: 0,
        }),
    }
}

// The first reading of a text of any bytes and length; where it is accepted, its frames stand on the sheet.
pub fn first_reading(t: Text, text: &[u8], sheet: &mut [u8]) -> Result<Lines, Fault>
    requires { SheetRoom text.now sheet.old }
    ensures { FirstLaid t text.now sheet.old sheet.new (as_reading result) }
{
    if 65536 < text.len() {
        return Err(Fault { number: 4, line: 0 });
    }
    if text.len() == 0 {
        return empty_text(t);
    }
    let lines = first_lines(t, text, sheet)?;
    steps_right(t, text, sheet, lines)
}
