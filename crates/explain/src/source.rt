// Where the samples of an accepted query come from, and of a table which rows are unsampled.
use super::table::say_passed;
use super::words::say;
use first_reading::first::sheet_size;
use frames::among::has_kinds;
use reading::second::{LONG_INDEX, LONG_SHEET, read_query};

// The rows of the table that are passed over are unsampled.
fn say_sampler(rt: &HostRuntime, sheet: &[u8], table: &[u8]) {
    if !has_kinds(sheet, 0x20, 0x20) {
        say!(rt; "nothing is sampled: there is no frame 20\n");
    } else if has_kinds(sheet, 0x24, 0x24) {
        say!(rt; "samples come from the table (frame 24)\n");
        say_passed(rt, table);
    } else {
        say!(rt; "samples come from the query's frames 21 to 23\n");
    }
}

pub fn say_source(rt: &HostRuntime, text: &[u8], table: Option<&[u8]>) {
    let mut sheet = [0u8; LONG_SHEET];
    let mut index = [0u16; LONG_INDEX];
    if let Ok(lines) = read_query(true, text, &mut sheet, &mut index) {
        let size = sheet_size(text.len(), lines.count);
        say_sampler(rt, &sheet[..size], table.unwrap_or(b""));
    }
}
