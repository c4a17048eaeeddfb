// The rows that are asked for: how many there are, some of them at even distances, and how many of those have an operator.
ghost use Rattle.std.specs.Prelude.{◌≡◌, ◌≤◌, length, take};
ghost use Rattle.row_frames.specs.Wanted.{wanted};
ghost use Rattle.buckets.specs.Buckets.{numbers_from, strided, hits, StrideRoom, NumbersRoom};
ghost use Rattle.buckets.specs.RowIndex.{RowsIndexed, rows_on};

use crate::index::{entry_row, first_entry, next_entry, row_frame};
use row_frames::below::byte_at;
use row_frames::row::{Want, row_wanted};

// How many rows are asked for.
pub fn count_rows(sheet: &[u8], index: &[u16], w: Want) -> usize
    requires { RowsIndexed (rows_on sheet.now) sheet.now index.now }
    ensures { (result ≡ length (numbers_from (wanted w) 0 (rows_on sheet.now))) × (result ≤ 1024) }
{
    let mut e = first_entry(index, w);
    let mut n: usize = 0;
    while e != 0 {
        let j = entry_row(index, e);
        e = next_entry(index, e);
        if !row_wanted(row_frame(sheet, index, j), w) {
            continue;
        }
        n += 1;
    }
    n
}

// Of the n rows that are asked for, those numbered j times n over m, for each j below m.
pub fn stride_rows(sheet: &[u8], index: &[u16], w: Want, n: usize, m: usize, out: &mut [u16])
    requires rows_indexed { RowsIndexed (rows_on sheet.now) sheet.now index.now }
    requires stride_room { StrideRoom (numbers_from (wanted w) 0 (rows_on sheet.now)) n m out.old }
    ensures { (take m out.new ≡ strided m (numbers_from (wanted w) 0 (rows_on sheet.now))) × (length out.new ≡ length out.old) }
{
    let mut e = first_entry(index, w);
    let mut k: usize = 0;
    let mut j: usize = 0;
    while j < m {
        let row = entry_row(index, e);
        e = next_entry(index, e);
        if !row_wanted(row_frame(sheet, index, row), w) {
            continue;
        }
        let at = k;
        k += 1;
        if at != j * n / m {
            continue;
        }
        out[j] = row;
        j += 1;
    }
}

// How many of the first m numbers are those of a row of the operator.
pub fn op_hits(sheet: &[u8], index: &[u16], rows: &[u16], m: usize, op: u8) -> usize
    requires rows_indexed { RowsIndexed (rows_on sheet.now) sheet.now index.now }
    requires numbers_room { NumbersRoom (length (rows_on sheet.now)) m rows.now }
    ensures { (result ≡ hits (rows_on sheet.now) op (take m rows.now)) × (result ≤ m) }
{
    let mut n: usize = 0;
    for &row in &rows[..m] {
        if byte_at(row_frame(sheet, index, row), 3) == op {
            n += 1;
        }
    }
    n
}
