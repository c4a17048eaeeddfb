// The tests 2, 3 and 4 of a frame: its kind and place, its length, its limits.
ghost use Rattle.std.specs.Prelude.{◌≡◌, ◌<◌};
ghost use Rattle.frames.specs.Kinds.{kind_at};
ghost use Rattle.frame_tests.specs.Faults.{text_number, is_header, header_first, in_place, belongs as belongs_to, is_atom, is_row, is_counted, counted_most, counted as counted_of, has_room, frame_fault};

use frames::below::{byte_at, low_byte, row};
use frames::frame::{frame_length, limits_pass};

// Which of the three texts is read.
#[derive(Clone, Copy, PartialEq, Eq)]
pub enum Text {
    Query,
    Plan,
    Table,
}

pub fn text_number(t: Text) -> u8
    ensures { result ≡ text_number t }
{
    match t {
        Text::Query => 0,
        Text::Plan => 1,
        Text::Table => 2,
    }
}

fn is_header(kind: u8) -> bool
    ensures { result ≡ is_header kind }
{
    kind == 0 || kind == 0x3f
}

fn header_first(first: bool, kind: u8) -> bool
    ensures { result ≡ header_first first kind }
{
    if first {
        is_header(kind)
    } else {
        !is_header(kind)
    }
}

fn in_place(t: Text, first: bool, kind: u8) -> bool
    ensures { result ≡ in_place t first kind }
{
    match t {
        Text::Query => header_first(first, kind),
        Text::Plan => header_first(first, kind),
        Text::Table => true,
    }
}

fn belongs(t: Text, first: bool, kind: u8, text: u8) -> bool
    requires { text ≡ (kind_at kind).text }
    ensures { result ≡ belongs_to t first kind }
{
    text == text_number(t) && in_place(t, first, kind)
}

pub fn is_atom(kind: u8) -> bool
    ensures { result ≡ is_atom kind }
{
    1 <= kind && kind <= 0x0e
}

// Whether a kind is that of a row: 30 or 31.
pub fn is_row(kind: u8) -> bool
    ensures { result ≡ is_row kind }
{
    kind == 0x30 || kind == 0x31
}

fn is_counted(t: Text, kind: u8) -> bool
    ensures { result ≡ is_counted t kind }
{
    match t {
        Text::Query => is_atom(kind),
        Text::Plan => false,
        Text::Table => is_row(kind),
    }
}

fn counted_most(t: Text) -> usize
    ensures { result ≡ counted_most t }
{
    match t {
        Text::Query => 64,
        Text::Plan => 0,
        Text::Table => 1024,
    }
}

pub fn counted(t: Text, c: usize, kind: u8) -> usize
    requires { c < 65536 }
    ensures { result ≡ counted_of t c kind }
{
    if is_counted(t, kind) { c + 1 } else { c }
}

fn has_room(t: Text, c: usize, kind: u8) -> bool
    ensures { result ≡ has_room t c kind }
{
    !is_counted(t, kind) || c < counted_most(t)
}

// The tests 2, 3 and 4 of a frame: the first that it fails, or 0.
pub fn frame_fault(t: Text, first: bool, c: usize, frame: &[u8]) -> u8
    ensures { result ≡ frame_fault t first c frame.now }
{
    let kind = byte_at(frame, 0);
    let row = row(kind);
    let tests = low_byte(row);
    if !belongs(t, first, kind, tests % 4) {
        2
    } else if frame.len() != frame_length(frame) {
        3
    } else if !limits_pass(tests, row / 0x100, frame) {
        4
    } else if has_room(t, c, kind) {
        0
    } else {
        4
    }
}
