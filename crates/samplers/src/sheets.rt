// The answers of the sample sheets, frames 21 to 23: absent lists are empty, absent lengths 0.
ghost use Rattle.std.specs.Prelude.{◌≡◌, ◌≤◌, length};
ghost use Rattle.table_samples.specs.Sheet.{frames_in};
ghost use Rattle.query.specs.Given.{Given};
ghost use Rattle.query.specs.Statistics.{driver_sample, key_classes, probe_len};
ghost use Rattle.table_samples.specs.Listed.{Listed};

use hexadecimal::{byte_at, word_at};
use query::below::find_in;
use table_samples::below::copy_shorts;

// The first k nodes of an atom's sheet, and how many they are.
pub fn sheet_drivers(sheet: &[u8], index: &[u16], atom: u8, k: usize, nodes: &mut [u16]) -> usize
    requires k_in_bounds { k ≤ length nodes.old }
    requires given { Given sheet.now index.now }
    ensures { Listed nodes.new result k (driver_sample (frames_in sheet.now) atom k) }
{
    let key = [0x21, atom];
    let frame = find_in(sheet, index, &key);
    let n = k.min(usize::from(byte_at(frame, 2)));
    copy_shorts(frame, 3, n, nodes, 0);
    n
}

// The classes of a node at a site, and how many they are.
pub fn sheet_classes(
    sheet: &[u8],
    index: &[u16],
    node: u16,
    site: u8,
    position: u8,
    classes: &mut [u16],
) -> usize
    requires in_bounds { 256 ≤ length classes.old }
    requires given { Given sheet.now index.now }
    ensures { Listed classes.new result 255 (key_classes (frames_in sheet.now) node site position) }
{
    let [high, low] = node.to_be_bytes();
    let key = [0x22, high, low, site, position];
    let frame = find_in(sheet, index, &key);
    let n = usize::from(byte_at(frame, 5));
    copy_shorts(frame, 6, n, classes, 0);
    n
}

// The length of a probe.
pub fn sheet_probe(sheet: &[u8], index: &[u16], class: u16, path: u8, position: u8, op: u8) -> u32
    requires { Given sheet.now index.now }
    ensures { result ≡ probe_len (frames_in sheet.now) class path position op }
{
    let [high, low] = class.to_be_bytes();
    let key = [0x23, high, low, path, position, op];
    word_at(find_in(sheet, index, &key), 6)
}
