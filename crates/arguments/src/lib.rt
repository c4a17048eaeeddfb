// An argument of a program that is a number in decimal.
#![tactic(auto)]

ghost use Rattle.std.specs.Prelude.{◌≡◌, true, ◌+◌, ◌-◌, ◌*◌};
ghost use Rattle.arguments.specs.Decimal.{fits as fits_of, decimal_of};

pub mod words;

// Whether b is a digit, and the number that it gives behind the value is below 2^64.
fn fits(value: u64, b: u8) -> bool
    ensures { result ≡ fits_of value b }
{
    matches!(b, b'0'..=b'9') && value <= (u64::MAX - u64::from(b - b'0')) / 10
}

fn with_digit(value: u64, b: u8) -> u64
    requires { fits_of value b ≡ true }
    ensures { result ≡ value * 10 + (b - 48) }
{
    value * 10 + u64::from(b - b'0')
}

// The number below 2^64 that decimal digits give.
pub fn decimal(word: &[u8]) -> Option<u64>
    ensures { result ≡ decimal_of word.now }
{
    if word.is_empty() {
        return None;
    }
    let mut value: u64 = 0;
    for &b in word {
        if !fits(value, b) {
            return None;
        }
        value = with_digit(value, b);
    }
    Some(value)
}
