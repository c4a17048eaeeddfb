// The second reading: each frame is tested 5, 6, 7, 14 and 13 in turn.
ghost use Rattle.std.specs.Prelude.{◌≡◌, length};
ghost use Rattle.first_reading.specs.Reading.{Accepted, as_reading};
ghost use Rattle.indexing.specs.Frames.{kind_of};
ghost use Rattle.indexing.specs.Rows.{tests_of};
ghost use Rattle.second_reading.specs.Second.{header_counts, counts_in_by, fault_of};
ghost use Rattle.indexing.specs.Index.{slots_for, hash_of, Falling, given_by};
ghost use Rattle.second_reading.specs.Rereading.{fields_fault, chained_by, BlankFor, LeadersFor, Rereads};

use crate::leading::{is_chained, mark_leader};
use class_sets::below::{Counts, byte_at};
use first_reading::below::Text;
use first_reading::first::{Fault, Lines};
use indexing::below::{frame_at, key_length, range_passes, reals_pass, tests_of};
use indexing::index::{hash_of, key_given, note};

// What a header says, with that many atoms, and with a table to take samples from or none.
fn header_counts(table: bool, header: &[u8], atoms: usize) -> Counts
    ensures { result ≡ header_counts table header.now atoms }
{
    Counts {
        variables: byte_at(header, 1),
        globals: byte_at(header, 2),
        literals: byte_at(header, 3),
        atoms,
        rows: 0,
        table,
    }
}

// What there is to name in a text, c of its frames being atoms or rows.
pub fn counts_of(table: bool, t: Text, sheet: &[u8], c: usize) -> Counts
    ensures { result ≡ counts_in_by table t sheet.now c }
{
    match t {
        Text::Query => header_counts(table, frame_at(sheet, 0), c),
        Text::Plan => header_counts(table, frame_at(sheet, 0), 64),
        Text::Table => Counts {
            variables: 0,
            globals: 16,
            literals: 0,
            atoms: 0,
            rows: c,
            table,
        },
    }
}

// The tests 5 and 6 of a frame: the first that it fails, or 0. Of a kind that neither looks at, as of rows, they need not be made.
fn fields_fault(n: Counts, tests: u8, frame: &[u8]) -> u8
    requires { tests ≡ tests_of (kind_of frame.now) }
    ensures { result ≡ fields_fault n frame.now }
{
    if tests < 8 {
        0
    } else if !range_passes(n, tests, frame) {
        5
    } else if reals_pass(n, tests, frame) {
        0
    } else {
        6
    }
}

// The tests 5, 6, 7, 14 and 13 of a frame, by the index and the leaders of those before it: the first that it fails, or 0.
fn second_fault(
    n: Counts,
    sheet: &[u8],
    index: &[u16],
    leaders: &[u64],
    frame: &[u8],
    hash: usize,
    k: u8,
) -> u8
    requires k_value { k ≡ (kind_of frame.now).key }
    requires hash_value { hash ≡ hash_of frame.now }
    requires falling { Falling (slots_for (length index.now)) index.now }
    ensures { result ≡ fault_of n frame.now (given_by (slots_for (length index.now)) sheet.now index.now frame.now) (chained_by sheet.now index.now leaders.now frame.now) }
{
    let kind = byte_at(frame, 0);
    let first = fields_fault(n, tests_of(kind), frame);
    if first != 0 {
        first
    } else if key_given(sheet, index, frame, hash, k) {
        7
    } else if is_chained(sheet, index, leaders, frame) {
        14
    } else if kind != 0x24 {
        0
    } else if n.table {
        0
    } else {
        13
    }
}

// The frames in turn, after a first reading that found those lines. Each that passes is entered, and its leader marked.
pub fn second_lines(
    n: Counts,
    sheet: &[u8],
    lines: Lines,
    index: &mut [u16],
    leaders: &mut [u64],
) -> Result<Lines, Fault>
    requires blank_for { BlankFor sheet.now index.old }
    requires leaders_for { LeadersFor sheet.now leaders.old }
    ensures { Rereads n sheet.now (Accepted lines.count lines.counted) index.new (as_reading result) }
{
    let mut at: usize = 0;
    let mut k: usize = 0;
    let mut m: usize = 0;
    // kept: a frame is entered into the index by its place, which an iterator over frames does not give: the walk counts it anyway.
    while at < sheet.len() {
        let frame = frame_at(sheet, at);
        let hash = hash_of(frame);
        let key = key_length(byte_at(frame, 0));
        let fault = second_fault(n, sheet, index, leaders, frame, hash, key);
        if fault != 0 {
            return Err(Fault {
                number: fault,
                line: k + 1,
            });
        }
        m = note(index, frame, hash, key, at, m);
        mark_leader(leaders, frame);
        at += frame.len();
        k += 1;
    }
    Ok(lines)
}
