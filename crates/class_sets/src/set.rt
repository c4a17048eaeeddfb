// A set of classes: 1,024 words of 64 bits, the lowest class in the lowest bit of the first word.
ghost use Rattle.std.specs.Prelude.{◌≡◌, ◌<◌, length};
ghost use Rattle.class_sets.specs.Sets.{set_words, has_bit, with_bit, has_class, with_class};

// How many words a set has.
pub const SET_WORDS: usize = 1024;

fn has_bit(word: u64, place: usize) -> bool
    requires { place < 64 }
    ensures { result ≡ has_bit word place }
{
    (word >> place) % 2 == 1
}

fn with_bit(word: u64, place: usize) -> u64
    requires { place < 64 }
    ensures { result ≡ with_bit word place }
{
    if has_bit(word, place) {
        word
    } else {
        word + (1 << place)
    }
}

// Whether the class is in the set. A class beyond the words of a shorter set is not.
pub fn has_class(set: &[u64], class: u16) -> bool
    ensures { result ≡ has_class set.now class }
{
    let c = usize::from(class);
    c / 64 < set.len() && has_bit(set[c / 64], c % 64)
}

pub fn add_class(set: &mut [u64], class: u16)
    requires { length set.old ≡ set_words }
    ensures { set.new ≡ with_class set.old class }
{
    let c = usize::from(class);
    set[c / 64] = with_bit(set[c / 64], c % 64);
}
