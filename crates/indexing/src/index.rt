// An index of a sheet's keyed frames: one list of entries a slot, by the first bytes of a frame's key.
ghost use Rattle.std.specs.Prelude.{◌≡◌, ◌%◌, ◌<◌, ◌≤◌, length, get_or, eqb};
ghost use Rattle.frame_keys.specs.Sheet.{frames_in};
ghost use Rattle.frame_keys.specs.Frames.{kind_of};
ghost use Rattle.frame_keys.specs.Keys.{find as find_of};
ghost use Rattle.indexing.specs.Index.{slots_for, hashed as hashed_of, hash_of, found, given_by, noted, entries_with, Falling, Proper, Indexed, Finds, Noting};

use frame_keys::below::{frame_at, key_length};
use frame_keys::keys::begins_at;

// How many of a key's first bytes count.
fn hashed(kind: u8) -> usize
    ensures { (result ≡ hashed_of kind) × (result ≤ 6) }
{
    let k = usize::from(key_length(kind));
    if k <= 6 { k } else { 4 }
}

// How many hashes there are: each is below.
const HASHES: usize = 512;

// The hash of a key.
pub fn hash_of(key: &[u8]) -> usize
    ensures { result ≡ hash_of key.now }
{
    if key.len() == 0 {
        return 0;
    }
    let n = hashed(key[0]).min(key.len());
    let mut h: usize = 0;
    for b in &key[..n] {
        h = (h * 31 + usize::from(*b)) % HASHES;
    }
    h
}

// Few slots or many, and the numbers of the shortest index that has many.
pub const FEW_SLOTS: usize = 32;

pub const MANY_SLOTS: usize = 512;

const LARGE_INDEX: usize = 1024;

// How many slots an index of that length has.
fn slots_for(length: usize) -> usize
    ensures { (result ≡ slots_for length) × (result ≤ 512) }
{
    if length < LARGE_INDEX {
        FEW_SLOTS
    } else {
        MANY_SLOTS
    }
}

// The slot of a hash in an index of that length.
fn slot_for(hash: usize, length: usize) -> usize
    ensures { (result ≡ hash % slots_for length) × (result < slots_for length) }
{
    if length < LARGE_INDEX {
        hash % FEW_SLOTS
    } else {
        hash % MANY_SLOTS
    }
}

// The i-th number, and 0 past the end.
fn number_at(index: &[u16], i: usize) -> usize
    ensures { (result ≡ get_or index.now i 0) × (result < 65536) }
{
    usize::from(index.get(i).copied().unwrap_or(0))
}

// Whether the slot of a hash has no entry: then no frame is entered with that hash.
fn is_empty(index: &[u16], hash: usize) -> bool
    ensures { result ≡ eqb (get_or index.now (hash % slots_for (length index.now)) 0) 0 }
{
    number_at(index, slot_for(hash, index.len())) == 0
}

// Whether the slot of a key has no entry: then no frame has the key, and none need be searched for.
pub fn is_absent(index: &[u16], key: &[u8]) -> bool
    ensures { result ≡ eqb (get_or index.now (hash_of key.now % slots_for (length index.now)) 0) 0 }
{
    is_empty(index, hash_of(key))
}

// The latest entered frame that begins with the key, which has that hash, and an empty part where there is none.
fn search<'a, 'b, 'c>(sheet: &'a [u8], index: &'b [u16], key: &'c [u8], hash: usize) -> &'a [u8]
    requires falling { Falling (slots_for (length index.now)) index.now }
    requires hash_value { hash ≡ hash_of key.now }
    ensures { result.now ≡ found (slots_for (length index.now)) sheet.now index.now key.now }
{
    let slots = slots_for(index.len());
    let mut e = number_at(index, slot_for(hash, index.len()));
    while e != 0 {
        let at = number_at(index, slots + 2 * e);
        e = number_at(index, slots + 2 * e + 1);
        if !begins_at(key, sheet, at) {
            continue;
        }
        let frame = frame_at(sheet, at);
        if key.len() <= frame.len() {
            return frame;
        }
    }
    &sheet[0..0]
}

// The frame with that key, where the index finds it.
pub fn find_where<'a, 'b, 'c>(sheet: &'a [u8], index: &'b [u16], key: &'c [u8]) -> &'a [u8]
    requires { Finds sheet.now index.now key.now }
    ensures { result.now ≡ find_of key.now (frames_in sheet.now) }
{
    search(sheet, index, key, hash_of(key))
}

// The frame with that key, by the sheet's index.
pub fn find_by<'a, 'b, 'c>(sheet: &'a [u8], index: &'b [u16], key: &'c [u8]) -> &'a [u8]
    requires proper { Proper key.now }
    requires indexed { Indexed sheet.now index.now }
    ensures { result.now ≡ find_of key.now (frames_in sheet.now) }
{
    find_where(sheet, index, key)
}

// Whether an entered frame has the key of this one, which is its first k bytes and has that hash.
pub fn key_given(sheet: &[u8], index: &[u16], frame: &[u8], hash: usize, k: u8) -> bool
    requires k_value { k ≡ (kind_of frame.now).key }
    requires hash_value { hash ≡ hash_of frame.now }
    requires falling { Falling (slots_for (length index.now)) index.now }
    ensures { result ≡ given_by (slots_for (length index.now)) sheet.now index.now frame.now }
{
    if k == 0 || is_empty(index, hash) {
        return false;
    }
    let n = usize::from(k).min(frame.len());
    let alike = search(sheet, index, &frame[..n], hash);
    1 <= alike.len()
}

// A frame with a key, which begins at `at`, is entered behind m entries. How many there are then.
pub fn note(index: &mut [u16], frame: &[u8], hash: usize, k: u8, at: usize, m: usize) -> usize
    requires k_value { k ≡ (kind_of frame.now).key }
    requires hash_value { hash ≡ hash_of frame.now }
    requires noting { Noting (slots_for (length index.old)) index.old at m }
    ensures { (index.new ≡ noted (slots_for (length index.old)) index.old frame.now at m) × (result ≡ entries_with frame.now m) }
{
    if k == 0 {
        return m;
    }
    let slots = slots_for(index.len());
    let s = slot_for(hash, index.len());
    let e = m + 1;
    let older = index[s];
    index[slots + 2 * e] = at as u16;
    index[slots + 2 * e + 1] = older;
    index[s] = e as u16;
    e
}
