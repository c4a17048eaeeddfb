// The shapes of the table's operators: each has the shape of its first row, and a row of another shape is a fault.
ghost use Rattle.std.specs.Prelude.{◌≡◌, ◌+◌, ◌<◌, eqb, length, replicate};
ghost use Rattle.join_tests.specs.Rows.{row_of};
ghost use Rattle.join_tests.specs.Arrays.{shape_of, fits_shape};
ghost use Rattle.table_tests.specs.Shapes.{RowNoted, TableNoted};

use first_reading::first::Refusal;
use frame_tests::tests::{Text, is_row};
use frames::walk::Frames;
use hexadecimal::byte_at;

// The shape of a row's frame: 1 for a literal, 2 and its number of children for a node.
fn row_shape(frame: &[u8]) -> usize
    ensures { result ≡ shape_of (row_of frame.now) }
{
    if byte_at(frame, 0) != 0x30 {
        return 1;
    }
    2 + usize::from(byte_at(frame, 4))
}

// Whether a row of that shape may follow: no row of its operator came before, or the first has the same shape.
fn like_first(first: usize, shape: usize) -> bool
    ensures { result ≡ fits_shape (eqb shape) first }
{
    first == 0 || shape == first
}

// The fault of one frame of the table; the shape of a row that has none is noted.
fn row_fault(frame: &[u8], shapes: &mut [usize]) -> u8
    requires { length shapes.old ≡ 256 }
    ensures { RowNoted frame.now shapes.old result shapes.new }
{
    let op = usize::from(byte_at(frame, 3));
    if !is_row(byte_at(frame, 0)) {
        return 0;
    }
    let shape = row_shape(frame);
    if !like_first(shapes[op], shape) {
        return 11;
    }
    shapes[op] = shape;
    0
}

// The table's frames in turn: the first row unlike an earlier one of its operator. No shape is noted before.
pub fn shapes_fault(table: &[u8], shapes: &mut [usize]) -> Result<(), Refusal>
    requires { shapes.old ≡ replicate 256 0 }
    ensures { TableNoted table.now result shapes.new }
{
    let mut n: usize = 0;
    for frame in Frames::of(table) {
        let fault = row_fault(frame, shapes);
        n += 1;
        if fault != 0 {
            return Err(Refusal {
                number: fault,
                text: Text::Table,
                line: n,
            });
        }
    }
    Ok(())
}
