// The words that a program is started with.
ghost use Rattle.std.specs.Prelude.{◌≤◌};

use super::decimal;
use std::env::{Env, FillError};

// Words are counted up to this many: more than any program here takes.
const COUNTED_MOST: usize = 4;

// How many words there are, the program's name among them, counted up to four.
pub fn word_count(env: &impl Env) -> usize
    ensures { result ≤ 4 }
{
    let mut word = [0u8; 4096];
    for i in 0..COUNTED_MOST {
        if let Err(FillError::NotPresent) = env.arg(i, &mut word) {
            return i;
        }
    }
    COUNTED_MOST
}

// The number that word i gives; one of over 4,096 bytes is none.
pub fn number_at(env: &impl Env, i: usize) -> Option<u64> {
    let mut word = [0u8; 4096];
    match env.arg(i, &mut word) {
        Ok(n) => decimal(&word[..n]),
        Err(_) => None,
    }
}
