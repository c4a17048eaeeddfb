// The index of a table's rows, read: its layout, the chain of a slot, the frame of a row.
ghost use Rattle.std.specs.Prelude.{◌≡◌, ◌+◌, ◌<◌, length, get_or};
ghost use Rattle.row_frames.specs.Running.{no_row};
ghost use Rattle.row_frames.specs.Rows.{row_of};
ghost use Rattle.buckets.specs.RowIndex.{row_slots, head_at, row_at, next_at, slot_for, RowsIndexed, rows_on};

use row_frames::below::frame_at;
use row_frames::row::{OP_PATH, Want};

// The slots of classes come first, then those of operators.
pub const CLASS_SLOTS: usize = 512;

const ROW_SLOTS: usize = CLASS_SLOTS + 256;

// Where the places of the rows begin, the first entries of the slots, the entries; and the length of the whole array.
pub const ROWS_AT: usize = 22400;

pub const HEADS_AT: usize = ROWS_AT + 1024;

pub const ENTRIES_AT: usize = HEADS_AT + ROW_SLOTS;

pub const TABLE_INDEX: usize = ENTRIES_AT + 2 * (17 * 1024 + 1);

// The i-th number, and 0 past the end.
fn number_at(index: &[u16], i: usize) -> u16
    ensures { result ≡ get_or index.now i 0 }
{
    index.get(i).copied().unwrap_or(0)
}

// The slot that has the rows which are asked for.
fn slot_for(w: Want) -> usize
    ensures { (result ≡ slot_for w) × (result < row_slots) }
{
    if w.path == OP_PATH {
        return CLASS_SLOTS + usize::from(w.class) % 256;
    }
    usize::from(w.class) % CLASS_SLOTS
}

// The first entry that can have a row which is asked for, 0 where there is none.
pub fn first_entry(index: &[u16], w: Want) -> usize
    ensures { (result ≡ head_at index.now (slot_for w)) × (result < 65536) }
{
    usize::from(number_at(index, HEADS_AT + slot_for(w)))
}

// The row of an entry, and the entry after it.
pub fn entry_row(index: &[u16], e: usize) -> u16
    requires { e < 65536 }
    ensures { result ≡ row_at index.now e }
{
    number_at(index, ENTRIES_AT + 2 * e)
}

pub fn next_entry(index: &[u16], e: usize) -> usize
    requires { e < 65536 }
    ensures { (result ≡ next_at index.now e) × (result < 65536) }
{
    usize::from(number_at(index, ENTRIES_AT + 2 * e + 1))
}

// The frame of row j.
pub fn row_frame<'a, 'b>(sheet: &'a [u8], index: &'b [u16], j: u16) -> &'a [u8]
    requires rows_indexed { RowsIndexed (rows_on sheet.now) sheet.now index.now }
    requires j_in_bounds { j < length (rows_on sheet.now) }
    ensures { row_of result.now ≡ get_or (rows_on sheet.now) j no_row }
{
    frame_at(
        sheet,
        usize::from(number_at(index, ROWS_AT + usize::from(j))),
    )
}
