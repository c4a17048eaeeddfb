// A frame's key: the bytes that it begins with.
ghost use Rattle.std.specs.Prelude.{◌≡◌, drop, eqb};
ghost use Rattle.std.specs.Cmp.Lexicographic.{pointwise};
ghost use Rattle.frame_keys.specs.Keys.{begins as begins_with};

// How many bytes are compared at a time, and how many of a key's last ones before the others.
const GROUP: usize = 8;

const LAST: usize = 4;

// `a == b`, a group at a time up to the first that differs; the library's `==` looks at up to four before it answers.
// Inlined, as the two below: they are the body of a search's loop, in which a call takes as long as a comparison.
#[inline(always)]
fn equal(a: &[u8], b: &[u8]) -> bool
    ensures { result ≡ pointwise eqb a.now b.now }
{
    let mut left = a;
    let mut rest = b;
    while let Some((x, later)) = left.split_first_chunk::<GROUP>() {
        let Some((y, behind)) = rest.split_first_chunk::<GROUP>() else {
            return false;
        };
        if x != y {
            return false;
        }
        left = later;
        rest = behind;
    }
    left == rest
}

// Whether the frame begins with the key. The key's last bytes come first: keys with one hash mostly differ in them.
#[inline(always)]
pub fn begins(key: &[u8], frame: &[u8]) -> bool
    ensures { result ≡ begins_with key.now frame.now }
{
    if frame.len() < key.len() {
        return false;
    }
    let part = &frame[..key.len()];
    match key.last_chunk::<LAST>() {
        Some(last) if !part.ends_with(last) => false,
        _ => equal(key, part),
    }
}

// Whether the bytes from `at` on begin with the key.
#[inline(always)]
pub fn begins_at(key: &[u8], sheet: &[u8], at: usize) -> bool
    ensures { result ≡ begins_with key.now (drop at sheet.now) }
{
    if sheet.len() < at {
        key.is_empty()
    } else {
        begins(key, &sheet[at..])
    }
}
