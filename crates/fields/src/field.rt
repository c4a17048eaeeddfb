// The fields that frames are made of, and the tests 4, 5 and 6 of one field.
ghost use Rattle.std.specs.Prelude.{◌≡◌, ◌<◌, ◌≤◌};
ghost use Rattle.fields.specs.Fields.{width as width_of, field_fits, operand_in, lookup_in, field_in, field_real, field_passes};
ghost use Rattle.fields.specs.Codes.{decode};
ghost use Rattle.fields.specs.declared.field.Field.TheVariants.{Class};

use field_values::values::{ends_fit, lookup_fits, path_fits, real_fits, rest_fits, site_fits};
use hexadecimal::{byte_at, long_at, short_at};

// The fields of the table by kind, as the definitions have them; the code has each by a number.
#[derive(Clone, Copy)]
pub enum Field {
    // that many bytes, whatever they are
    Free(u8),
    // a count, at most this
    Most(u8),
    Variable,
    Global,
    Literal,
    Atom,
    Bootstrap,
    Real,
    Class,
    // tag and index
    Operand,
    // operand and multiplicity
    Element,
    // site and position
    KeySite,
    // path and position
    ProbePath,
    // flags, prefix and suffix handle
    Ends,
    // flag and handle of the rest
    Rest,
    // four bytes
    Lookup,
    // the number of a row, or that behind the last
    Row,
}

// The codes of the fields. That of free bytes is how many they are, that of a count 128 more than the most it may be.
const VARIABLE: u8 = 16;

const GLOBAL: u8 = 17;

const LITERAL: u8 = 18;

const ATOM: u8 = 19;

const BOOTSTRAP: u8 = 20;

const REAL: u8 = 21;

const CLASS: u8 = 22;

const OPERAND: u8 = 23;

const ELEMENT: u8 = 24;

const KEY_SITE: u8 = 25;

const PROBE_PATH: u8 = 26;

const ENDS: u8 = 27;

const REST: u8 = 28;

const LOOKUP: u8 = 29;

const ROW: u8 = 30;

// How many variables, globals, literals, atoms and rows there are to name, and whether there is a table to take samples from.
#[derive(Clone, Copy)]
pub struct Counts {
    pub variables: u8,
    pub globals: u8,
    pub literals: u8,
    pub atoms: usize,
    pub rows: usize,
    pub table: bool,
}

// The width of the field with this code, which is not that of free bytes.
pub fn width(code: u8) -> usize
    requires { 16 ≤ code }
    ensures { (result ≡ width_of (decode code)) × (result < 256) }
{
    match code {
        BOOTSTRAP => 2,
        REAL => 8,
        CLASS => 2,
        OPERAND => 2,
        ELEMENT => 3,
        KEY_SITE => 2,
        PROBE_PATH => 2,
        ENDS => 3,
        REST => 2,
        LOOKUP => 4,
        ROW => 2,
        _ => 1,
    }
}

fn class_fits(frame: &[u8], i: usize) -> bool
    requires { i < 65300 }
    ensures { result ≡ field_fits Class frame.now i }
{
    short_at(frame, i) <= 0xfffe
}

fn count_fits(code: u8, frame: &[u8], i: usize) -> bool
    requires { 128 ≤ code }
    ensures { result ≡ field_fits (decode code) frame.now i }
{
    byte_at(frame, i) <= code - 128
}

// Test 4 of the field with this code that begins at byte i.
fn fits_by_code(code: u8, frame: &[u8], i: usize) -> bool
    requires { i < 65300 }
    ensures { result ≡ field_fits (decode code) frame.now i }
{
    match code {
        BOOTSTRAP => short_at(frame, i) <= 256,
        CLASS => class_fits(frame, i),
        OPERAND => byte_at(frame, i) <= 1,
        ELEMENT => byte_at(frame, i) <= 1,
        KEY_SITE => site_fits(byte_at(frame, i), byte_at(frame, i + 1)),
        PROBE_PATH => path_fits(byte_at(frame, i), byte_at(frame, i + 1)),
        ENDS => ends_fit(
            byte_at(frame, i),
            byte_at(frame, i + 1),
            byte_at(frame, i + 2),
        ),
        REST => rest_fits(byte_at(frame, i), byte_at(frame, i + 1)),
        LOOKUP => lookup_fits(
            byte_at(frame, i),
            byte_at(frame, i + 1),
            byte_at(frame, i + 2),
            byte_at(frame, i + 3),
        ),
        _ => code < 128 || count_fits(code, frame, i),
    }
}

// The same, a class and a count told apart first, of which rows are made.
pub fn field_fits(code: u8, frame: &[u8], i: usize) -> bool
    requires { i < 65300 }
    ensures { result ≡ field_fits (decode code) frame.now i }
{
    if code == CLASS {
        class_fits(frame, i)
    } else if 128 <= code {
        count_fits(code, frame, i)
    } else {
        fits_by_code(code, frame, i)
    }
}

fn operand_in(n: Counts, tag: u8, index: u8) -> bool
    ensures { result ≡ operand_in n tag index }
{
    if tag == 0 {
        index < n.variables
    } else {
        index < n.globals
    }
}

fn lookup_in(n: Counts, tag: u8, a: u8, b: u8) -> bool
    ensures { result ≡ lookup_in n tag a b }
{
    match tag {
        0 => true,
        2 => a < n.variables,
        _ => operand_in(n, a, b),
    }
}

// Test 5 of the field with this code that begins at byte i.
pub fn field_in(n: Counts, code: u8, frame: &[u8], i: usize) -> bool
    requires { i < 65300 }
    ensures { result ≡ field_in n (decode code) frame.now i }
{
    match code {
        VARIABLE => byte_at(frame, i) < n.variables,
        GLOBAL => byte_at(frame, i) < n.globals,
        LITERAL => byte_at(frame, i) < n.literals,
        ATOM => usize::from(byte_at(frame, i)) < n.atoms,
        OPERAND => operand_in(n, byte_at(frame, i), byte_at(frame, i + 1)),
        ELEMENT => operand_in(n, byte_at(frame, i), byte_at(frame, i + 1)),
        LOOKUP => lookup_in(
            n,
            byte_at(frame, i),
            byte_at(frame, i + 1),
            byte_at(frame, i + 2),
        ),
        ROW => usize::from(short_at(frame, i)) <= n.rows,
        _ => true,
    }
}

// Test 6 of the field with this code that begins at byte i.
pub fn field_real(code: u8, frame: &[u8], i: usize) -> bool
    requires { i < 65300 }
    ensures { result ≡ field_real (decode code) frame.now i }
{
    code != REAL || real_fits(long_at(frame, i))
}

// Which of the tests is made.
#[derive(Clone, Copy)]
pub enum Test {
    Limits,
    Range,
    Reals,
}

pub fn field_passes(t: Test, n: Counts, code: u8, frame: &[u8], i: usize) -> bool
    requires { i < 65300 }
    ensures { result ≡ field_passes t n (decode code) frame.now i }
{
    match t {
        Test::Limits => fits_by_code(code, frame, i),
        Test::Range => field_in(n, code, frame, i),
        Test::Reals => field_real(code, frame, i),
    }
}
