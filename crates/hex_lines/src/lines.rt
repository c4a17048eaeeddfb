// The line of a text that begins at a place.
ghost use Rattle.std.specs.Prelude.{◌≡◌, ◌+◌, ◌-◌, ◌<◌, ◌≤◌, length, drop};
ghost use Rattle.hex_lines.specs.Lines.{end_of, line_at};

// The place of the first 0a from `at` on, or the text's length.
fn line_end(text: &[u8], at: usize) -> usize
    requires { at ≤ length text.now }
    ensures { (result ≡ end_of at (drop at text.now)) × (result ≤ length text.now) }
{
    for i in at..text.len() {
        if text[i] == 10 {
            return i;
        }
    }
    text.len()
}

// The line that begins at `at`: no bytes where the text ends before.
pub fn line_at(text: &[u8], at: usize) -> &[u8]
    ensures { result.now ≡ line_at text.now at }
{
    if text.len() < at {
        return &text[0..0];
    }
    let e = line_end(text, at);
    &text[at..e]
}
