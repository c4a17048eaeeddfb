// A plan text in words.
use super::named::say_named;
use super::refusals::say_refusal;
use super::steps::say_step;
use first_reading::first::sheet_size;
use frame_tests::tests::Text;
use frames::walk::Frames;
use reading::second::{LONG_INDEX, LONG_SHEET, read_indexed};

// The frames of a plan's sheet, its header first.
fn say_frames(rt: &HostRuntime, sheet: &[u8], named: Option<u64>) {
    for frame in Frames::of(sheet) {
        say_step(rt, frame, named);
    }
}

fn say_sheet(rt: &HostRuntime, sheet: &[u8], named: Option<u64>) {
    say_frames(rt, sheet, named);
    say_named(rt, sheet, named);
}

pub fn explain_plan(rt: &HostRuntime, text: &[u8], named: Option<u64>) {
    let mut sheet = [0u8; LONG_SHEET];
    let mut index = [0u16; LONG_INDEX];
    match read_indexed(Text::Plan, text, &mut sheet, &mut index) {
        Ok(lines) => {
            let size = sheet_size(text.len(), lines.count);
            say_sheet(rt, &sheet[..size], named);
        }
        Err(fault) => say_refusal(rt, fault.number, fault.line, "plan"),
    }
}
