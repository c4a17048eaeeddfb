// The sampler's three questions: a table answers where `table` holds, else the sample sheets.
ghost use Rattle.std.specs.Prelude.{◌≡◌, ◌≤◌, length};
ghost use Rattle.table_samples.specs.Sheet.{frames_in};
ghost use Rattle.table_samples.specs.Listed.{Listed};
ghost use Rattle.samplers.specs.Samplers.{sampler_by};
ghost use Rattle.samplers.specs.Answers.{Drivers, Known, Answers};

use super::sheets::{sheet_classes, sheet_drivers, sheet_probe};
use table_samples::tables::{table_classes, table_drivers, table_probe};

// At most k nodes of an atom, by its number and its operator, and how many they are.
pub fn driver_sample(
    sheet: &[u8],
    index: &[u16],
    table: bool,
    atom: u8,
    op: u8,
    k: usize,
    nodes: &mut [u16],
) -> usize
    requires k_bound { (k ≤ 64) × (k ≤ length nodes.old) }
    requires answers { Answers sheet.now index.now table }
    ensures { Drivers sheet.now table nodes.new result k ((sampler_by table (frames_in sheet.now)).drivers atom op k) }
{
    if table {
        return table_drivers(sheet, index, op, k, nodes);
    }
    sheet_drivers(sheet, index, atom, k, nodes)
}

// The classes of a node at a site, and how many they are.
pub fn key_classes(
    sheet: &[u8],
    index: &[u16],
    table: bool,
    node: u16,
    site: u8,
    position: u8,
    classes: &mut [u16],
) -> usize
    requires in_bounds { 256 ≤ length classes.old }
    requires answers { Answers sheet.now index.now table }
    requires known { Known sheet.now table node }
    ensures { Listed classes.new result 255 ((sampler_by table (frames_in sheet.now)).classes node site position) }
{
    if table {
        return table_classes(sheet, index, node, site, position, classes);
    }
    sheet_classes(sheet, index, node, site, position, classes)
}

// The length of a probe by a class.
pub fn probe_len(
    sheet: &[u8],
    index: &[u16],
    table: bool,
    class: u16,
    path: u8,
    position: u8,
    op: u8,
) -> u32
    requires { Answers sheet.now index.now table }
    ensures { result ≡ (sampler_by table (frames_in sheet.now)).probe class path position op }
{
    if table {
        return table_probe(sheet, index, class, path, position, op);
    }
    sheet_probe(sheet, index, class, path, position, op)
}
