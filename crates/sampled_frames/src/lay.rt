// The frames that samples are taken from, in the table's place on a sheet: the table's own, and of one with frames 34 those of the rows that stand.
ghost use Rattle.std.specs.Prelude.{◌≡◌, true, take};
ghost use Rattle.frames.specs.Sheet.{frames_in};
ghost use Rattle.reading.specs.Leading.{has_leaders};
ghost use Rattle.standing.specs.Laid.{Lays};
ghost use Rattle.sampled_frames.specs.Laid.{CopyRoom, part_of, TableLaid, SampledLaid};

use frames::among::has_kinds;
use reading::second::LONG_SHEET;
use standing::lay::{SEEN, lay_standing};

// Copies the first n bytes behind the first `at` of the sheet: where they end.
fn copy_bytes(bytes: &[u8], n: usize, sheet: &mut [u8], at: usize) -> usize
    requires { CopyRoom bytes.now n sheet.old at }
    ensures { Lays sheet.old at (take n bytes.now) sheet.new result }
{
    sheet[at..at + n].copy_from_slice(&bytes[..n]);
    at + n
}

// The rows that stand take the place of the table, which stands from a to b: where they end.
fn lay_led(sheet: &mut [u8], a: usize, b: usize, keys: &[u16]) -> usize
    requires table_laid { TableLaid sheet.old a b keys.now }
    requires b_value { has_leaders (frames_in (part_of sheet.old a b)) ≡ true }
    ensures { SampledLaid sheet.old a b sheet.new result }
{
    let mut rows = [0u8; LONG_SHEET];
    let mut seen = [0u16; SEEN];
    let stood = lay_standing(&sheet[a..b], keys, 0, &mut rows, &mut seen);
    copy_bytes(&rows, stood.bytes, sheet, a)
}

// Any table.
pub fn lay_sampled(sheet: &mut [u8], a: usize, b: usize, keys: &[u16]) -> usize
    requires { TableLaid sheet.old a b keys.now }
    ensures { SampledLaid sheet.old a b sheet.new result }
{
    if has_kinds(&sheet[a..b], 0x34, 0x34) {
        return lay_led(sheet, a, b, keys);
    }
    b
}
