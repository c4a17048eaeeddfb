// The table by kind: the fixed length of a kind and the width of its items, a `const` array; its text, the tests that look at it, the codes of its item
// and its fields, and the length of its key, arms of a `match`, which are read-only data.
ghost use Rattle.std.specs.Prelude.{◌≡◌, ◌<◌, ◌≤◌, ◌*◌, ◌%◌, length, get_or};
ghost use Rattle.fields.specs.Fields.{width as width_of};
ghost use Rattle.kinds.specs.Kinds.{kind_at, fixed_length};
ghost use Rattle.kinds.specs.Rows.{length_words, lengths_of, tests_of, codes_of, row_of};

// "Each kind's fixed length and item width stand in one table": a byte a kind, eight to a word, the lowest kind in the lowest byte. Of a byte the
// high four binary places are the item width, 0 where there are no items, and the low four the fixed length; a byte that is no kind has length 1.
// The array is laid on the stack at each look-up, so it is words: ten stores, not eighty.
const LENGTHS: [u64; 10] = [
    0x24_13_03_03_04_08_24_04,
    0x01_25_24_35_34_26_25_25,
    0x01_01_01_0a_0b_0d_06_06,
    0x01_01_01_01_01_01_01_01,
    0x01_01_01_01_0a_26_23_0c,
    0x01_01_01_01_01_01_01_01,
    0x01_01_01_05_03_04_08_25,
    0x0a_01_01_01_01_01_01_01,
    0x26_03_03_03_03_05_04_44,
    0x01_01_01_02_06_03_25_36,
];

// No kind is this high.
const KINDS_END: u8 = 0x4d;

// The i-th word. That of the kinds of a table and that of the steps from 40 on, which are looked up most, are taken without laying the array.
fn word_at(i: usize) -> u64
    requires { i < 10 }
    ensures { result ≡ get_or length_words i 0 }
{
    match i {
        6 => LENGTHS[6],
        8 => LENGTHS[8],
        _ => LENGTHS[i],
    }
}

pub fn lengths(kind: u8) -> u8
    ensures { result ≡ lengths_of (kind_at kind) }
{
    if KINDS_END <= kind {
        return 1;
    }
    let k = usize::from(kind);
    let word = word_at(k / 8);
    low_byte(word >> (8 * (k % 8)))
}

pub fn fixed_length(kind: u8) -> usize
    ensures { (result ≡ fixed_length (kind_at kind)) × (result < 16) }
{
    usize::from(lengths(kind) % 16)
}

// The width of an item, and 0 where there are none.
pub fn item_width(kind: u8) -> usize
    ensures { (result ≡ width_of (kind_at kind).item) × (result < 16) }
{
    usize::from(lengths(kind) / 16)
}

// The rest of a kind's row as one number. Its lowest byte: the kind's text, and the tests that look at a field or an item of it (4 for test 4, 8 for
// test 5, 16 for test 6). Then the codes of its item and its fields.
fn query_row(kind: u8) -> u64
    requires { kind < 0x25 }
    ensures { result ≡ row_of (kind_at kind) }
{
    match kind {
        0x00 => 0x00_00_00_90_90_c0_00_04,
        0x01 => 0x00_00_00_90_01_10_17_0c,
        0x02 => 0x00_00_04_01_01_10_00_08,
        0x03 => 0x00_00_00_12_01_10_00_08,
        0x04 => 0x00_00_00_00_10_10_00_08,
        0x05 => 0x00_00_00_00_11_10_00_08,
        0x06 => 0x00_00_00_00_90_01_13_0c,
        0x07 => 0x00_00_00_90_01_10_17_0c,
        0x08 => 0x00_00_90_01_01_10_17_0c,
        0x09 => 0x00_00_90_01_01_10_17_0c,
        0x0a => 0x00_90_01_01_01_10_17_0c,
        0x0b => 0x00_00_00_90_01_10_18_0c,
        0x0c => 0x00_00_90_01_01_10_18_0c,
        0x0d => 0x00_00_00_90_01_10_17_0c,
        0x0e => 0x00_00_90_01_01_10_17_0c,
        0x10 => 0x00_00_00_00_04_01_00_00,
        0x11 => 0x00_00_00_00_04_13_00_08,
        0x12 => 0x00_00_00_00_04_15_00_10,
        0x13 => 0x00_00_00_15_01_01_00_10,
        0x14 => 0x00_00_00_00_15_01_00_10,
        0x20 => 0x00_00_00_15_14_c0_00_14,
        0x21 => 0x00_00_00_00_c0_13_02_0c,
        0x22 => 0x00_00_00_a0_19_02_16_04,
        0x23 => 0x00_00_04_01_1a_16_00_04,
        0x24 => 0x00_00_00_00_00_00_00_00,
        _ => 0x03,
    }
}

fn later_row(kind: u8) -> u64
    requires { 0x25 ≤ kind }
    ensures { result ≡ row_of (kind_at kind) }
{
    match kind {
        0x30 => 0x00_00_00_90_01_16_16_06,
        0x31 => 0x00_00_00_04_01_16_00_06,
        0x32 => 0x00_00_00_00_16_11_00_0e,
        0x33 => 0x00_00_00_00_00_1e_00_0a,
        0x34 => 0x00_00_00_00_16_16_00_06,
        0x3f => 0x02_02_02_90_90_c0_00_05,
        0x40 => 0x00_00_00_92_13_10_1d_0d,
        0x41 => 0x00_00_00_01_10_10_00_09,
        0x42 => 0x00_00_00_17_01_10_00_0d,
        0x43 => 0x00_00_00_00_10_10_00_09,
        0x44 => 0x00_00_00_00_11_10_00_09,
        0x45 => 0x00_00_00_00_11_10_00_09,
        0x46 => 0x00_00_00_00_10_10_00_09,
        0x47 => 0x00_00_00_90_1b_10_17_0d,
        0x48 => 0x00_00_90_1c_81_10_18_0d,
        0x49 => 0x00_00_00_90_1c_10_17_0d,
        0x4a => 0x00_00_00_00_12_10_00_09,
        0x4b => 0x00_00_00_00_04_10_00_09,
        0x4c => 0x00_00_00_00_00_01_00_01,
        _ => 0x03,
    }
}

// Texts other than a query have the kinds from 25 on.
pub fn row(kind: u8) -> u64
    ensures { result ≡ row_of (kind_at kind) }
{
    if kind < 0x25 {
        query_row(kind)
    } else {
        later_row(kind)
    }
}

pub fn tests_of(kind: u8) -> u8
    ensures { result ≡ tests_of (kind_at kind) }
{
    low_byte(row(kind))
}

// The codes of a kind's item, in the lowest byte, and of its fields.
pub fn codes_of(kind: u8) -> u64
    ensures { result ≡ codes_of (kind_at kind) }
{
    row(kind) / 0x100
}

// How many of a frame's leading bytes are its key: 0 where it has none, and 255 where the whole frame is its key.
pub fn key_length(kind: u8) -> u8
    ensures { result ≡ (kind_at kind).key }
{
    match kind {
        0x10 => 2,
        0x11 => 2,
        0x12 => 1,
        0x13 => 3,
        0x14 => 2,
        0x20 => 1,
        0x21 => 2,
        0x22 => 5,
        0x23 => 6,
        0x24 => 1,
        0x30 => 255,
        0x31 => 255,
        0x32 => 2,
        0x33 => 1,
        0x34 => 3,
        _ => 0,
    }
}

// The lowest byte.
pub fn low_byte(codes: u64) -> u8
    ensures { result ≡ codes % 256 }
{
    (codes % 0x100) as u8
}
