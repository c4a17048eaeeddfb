// The answers of a table, Note 3: nodes are row numbers.
ghost use Rattle.std.specs.Prelude.{◌≡◌, [], ◌<◌, ◌≤◌, length, take};
ghost use Rattle.buckets.specs.Atoms.{children as children_of};
ghost use Rattle.buckets.specs.Rows.{row_of};
ghost use Rattle.buckets.specs.RowIndex.{RowsIndexed, rows_on};
ghost use Rattle.table_samples.specs.TableSamples.{table_classes, table_drivers, table_probe, child_of, distinct_from, scaled_back};
ghost use Rattle.table_samples.specs.Listed.{Listed, RowsListed};

use buckets::below::{OP_PATH, Want, child_count};
use buckets::index::row_frame;
use buckets::sample::{count_rows, op_hits, stride_rows};
use hexadecimal::short_at;

// The operator's rows in order, at most k of them at even distances, and how many they are.
pub fn table_drivers(sheet: &[u8], index: &[u16], op: u8, k: usize, nodes: &mut [u16]) -> usize
    requires k_in_bounds { k ≤ length nodes.old }
    requires rows_indexed { RowsIndexed (rows_on sheet.now) sheet.now index.now }
    ensures { RowsListed (rows_on sheet.now) nodes.new result k (table_drivers (rows_on sheet.now) op k) }
{
    let w = Want {
        path: OP_PATH,
        place: 0,
        class: u16::from(op),
    };
    let n = count_rows(sheet, index, w);
    let m = k.min(n);
    stride_rows(sheet, index, w, n, m, nodes);
    m
}

// The distinct classes of a row's children, as they are first seen, and how many they are.
fn distinct_classes(frame: &[u8], classes: &mut [u16]) -> usize
    requires { 256 ≤ length classes.old }
    ensures { Listed classes.new result 255 (distinct_from [] (children_of (row_of frame.now))) }
{
    let n = child_count(frame);
    let mut m: usize = 0;
    for j in 0..n {
        let class = short_at(frame, 5 + 2 * j);
        if classes[..m].contains(&class) {
            continue;
        }
        classes[m] = class;
        m += 1;
    }
    m
}

// The class at a position, where the row has one.
fn class_at(frame: &[u8], position: u8, classes: &mut [u16]) -> usize
    requires { 256 ≤ length classes.old }
    ensures { Listed classes.new result 255 (child_of (children_of (row_of frame.now)) position) }
{
    let p = usize::from(position);
    if child_count(frame) <= p {
        return 0;
    }
    classes[0] = short_at(frame, 5 + 2 * p);
    1
}

// The classes of a row at a site, and how many they are.
pub fn table_classes(
    sheet: &[u8],
    index: &[u16],
    node: u16,
    site: u8,
    position: u8,
    classes: &mut [u16],
) -> usize
    requires in_bounds { 256 ≤ length classes.old }
    requires rows_indexed { RowsIndexed (rows_on sheet.now) sheet.now index.now }
    requires node_in_bounds { node < length (rows_on sheet.now) }
    ensures { Listed classes.new result 255 (table_classes (rows_on sheet.now) node site position) }
{
    let frame = row_frame(sheet, index, node);
    match site {
        0 => {
            classes[0] = short_at(frame, 1);
            1
        }
        1 => class_at(frame, position, classes),
        _ => distinct_classes(frame, classes),
    }
}

// The most rows of a bucket that are all looked at.
const PROBE_SCAN_CAP: usize = 256;

// So many of the rows read are of the operator, of the n rows of a bucket.
fn scaled(hits: usize, n: usize) -> u32
    requires { (hits ≤ 256) × (n ≤ 1024) }
    ensures { result ≡ scaled_back hits n }
{
    if n <= PROBE_SCAN_CAP {
        return hits as u32;
    }
    (hits * n / PROBE_SCAN_CAP) as u32
}

// How many rows of the operator there are in a bucket, by some of its rows where it is long.
pub fn table_probe(sheet: &[u8], index: &[u16], class: u16, path: u8, position: u8, op: u8) -> u32
    requires { RowsIndexed (rows_on sheet.now) sheet.now index.now }
    ensures { result ≡ table_probe (rows_on sheet.now) class path position op }
{
    let w = Want {
        path,
        place: position,
        class,
    };
    let n = count_rows(sheet, index, w);
    let m = PROBE_SCAN_CAP.min(n);
    let mut bucket = [0u16; PROBE_SCAN_CAP];
    stride_rows(sheet, index, w, n, m, &mut bucket);
    scaled(op_hits(sheet, index, &bucket, m, op), n)
}
