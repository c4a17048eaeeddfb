// A table text in words: how many rows it has, and which of them are passed over.
ghost use Rattle.std.specs.Prelude.{◌<◌};
ghost use Rattle.reading.specs.Index.{Indexed};
ghost use Rattle.passed_rows.specs.Stands.{RowsSheet};

use super::refusals::say_refusal;
use super::words::say;
use first_reading::first::sheet_size;
use frame_tests::tests::Text;
use frames::among::has_kinds;
use passed_rows::passed::is_passed;
use reading::second::{LONG_INDEX, LONG_SHEET, read_indexed, read_text};

// Row n, where it is passed over.
fn say_row(rt: &HostRuntime, sheet: &[u8], index: &[u16], n: usize)
    requires indexed { Indexed sheet.now index.now }
    requires rows_sheet { RowsSheet sheet.now }
    requires n_bound { n < 65536 }
{
    if is_passed(sheet, index, n) {
        say!(rt; "row {n} is passed over: an earlier row is equal by leaders\n");
    }
}

// The rows of the numbers below `rows`, in turn.
fn say_led(rt: &HostRuntime, sheet: &[u8], index: &[u16], rows: usize)
    requires indexed { Indexed sheet.now index.now }
    requires rows_sheet { RowsSheet sheet.now }
    requires rows_bound { rows < 65536 }
{
    for n in 0..rows {
        say_row(rt, sheet, index, n);
    }
}

// Without frames 34 no row is passed over.
fn say_sheet(rt: &HostRuntime, sheet: &[u8], index: &[u16], rows: usize)
    requires indexed { Indexed sheet.now index.now }
    requires rows_sheet { RowsSheet sheet.now }
    requires rows_bound { rows < 65536 }
{
    if has_kinds(sheet, 0x34, 0x34) {
        say_led(rt, sheet, index, rows);
    }
}

// The rows of an accepted table that are passed over, a line each.
pub fn say_passed(rt: &HostRuntime, text: &[u8]) {
    let mut sheet = [0u8; LONG_SHEET];
    let mut index = [0u16; LONG_INDEX];
    if let Ok(lines) = read_indexed(Text::Table, text, &mut sheet, &mut index) {
        let size = sheet_size(text.len(), lines.count);
        say_sheet(rt, &sheet[..size], &index, lines.counted);
    }
}

pub fn explain_table(rt: &HostRuntime, text: &[u8]) {
    match read_text(Text::Table, text) {
        Ok(lines) => {
            say!(rt; "{} rows\n", lines.counted);
            say_passed(rt, text);
        }
        Err(fault) => say_refusal(rt, fault.number, fault.line, "table"),
    }
}
