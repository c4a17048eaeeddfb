// The places from the first row on, then the entries from the last row on.
ghost use Rattle.std.specs.Prelude.{◌≡◌, ◌+◌, ◌<◌, drop};
ghost use Rattle.buckets.specs.RowIndex.{rows_at, heads_at, row_slots, rows_on};
ghost use Rattle.row_indexing.specs.Filling.{is_of, entered_once, entries_then, EntryRoom, RowRoom, RowEntered, rows_placed, FillRoom, Placed, TableIndexed, TableRoom};

use buckets::index::{CLASS_SLOTS, ENTRIES_AT, HEADS_AT, ROWS_AT, entry_row};
use frame_tests::tests::is_row;
use frames::frame::frame_at;
use hexadecimal::{byte_at, short_at};
use row_frames::row::child_count;

// Whether an entry is one of row j: there is no entry 0.
fn is_of(index: &[u16], e: u16, j: u16) -> bool
    ensures { result ≡ is_of index.now e j }
{
    e != 0 && entry_row(index, usize::from(e)) == j
}

// Row j is entered in the slot t, behind m entries, unless it is there. How many entries there are then.
fn enter(index: &mut [u16], t: usize, j: u16, m: usize) -> usize
    requires t_lt_row_slots { t < row_slots }
    requires entry_room { EntryRoom index.old (m + 1) }
    ensures { (index.new ≡ entered_once index.old t j m) × (result ≡ entries_then index.old t j m) }
{
    let first = index[HEADS_AT + t];
    if is_of(index, first, j) {
        return m;
    }
    let e = m + 1;
    index[ENTRIES_AT + 2 * e] = j;
    index[ENTRIES_AT + 2 * e + 1] = first;
    index[HEADS_AT + t] = e as u16;
    e
}

// Row j, by its frame, is entered in its slots, behind m entries. How many entries there are then.
fn enter_row(frame: &[u8], index: &mut [u16], j: u16, m: usize) -> usize
    requires { RowRoom frame.now index.old j m }
    ensures { RowEntered frame.now index.old j m index.new result }
{
    let n = child_count(frame);
    let mut last = m;
    for k in 0..n {
        let class = usize::from(short_at(frame, 5 + 2 * k));
        last = enter(index, class % CLASS_SLOTS, j, last);
    }
    enter(index, CLASS_SLOTS + usize::from(byte_at(frame, 3)), j, last)
}

// The n rows whose places are put are entered, the last one first.
fn enter_rows(sheet: &[u8], index: &mut [u16], n: usize)
    requires { FillRoom (rows_placed sheet.now index.old n) heads_at index.old }
    ensures { TableIndexed (rows_placed sheet.now index.old n) sheet.now heads_at index.old index.new }
{
    let mut m: usize = 0;
    for j in (0..n).rev() {
        let place = usize::from(index[ROWS_AT + j]);
        m = enter_row(frame_at(sheet, place), index, j as u16, m);
    }
}

// The places of the rows from byte `from` on: how many rows there are.
fn place_rows(sheet: &[u8], from: usize, index: &mut [u16]) -> usize
    requires { TableRoom sheet.now from index.old }
    ensures { Placed (rows_on (drop from sheet.now)) sheet.now index.old index.new result }
{
    let mut at = from;
    let mut n: usize = 0;
    // kept: a frame is entered by its place, which an iterator over frames does not give.
    while at < sheet.len() {
        let place = at;
        let frame = frame_at(sheet, at);
        at += frame.len();
        if !is_row(byte_at(frame, 0)) {
            continue;
        }
        index[ROWS_AT + n] = place as u16;
        n += 1;
    }
    n
}

// Indexes the rows of the sheet from byte `from` on.
pub fn index_table(sheet: &[u8], from: usize, index: &mut [u16])
    requires { TableRoom sheet.now from index.old }
    ensures { TableIndexed (rows_on (drop from sheet.now)) sheet.now rows_at index.old index.new }
{
    let n = place_rows(sheet, from, index);
    enter_rows(sheet, index, n);
}
