// An entry of the memo: where a key stands, and the value that is remembered there.
ghost use Rattle.std.specs.Prelude.{None};
ghost use Rattle.std.specs.Prelude.{◌≡◌, ◌*◌, ◌<◌, ◌≤◌, length, get_or};
ghost use Rattle.measure.specs.Selectivity.{zero64};
ghost use Rattle.plan_facts.specs.Memo.{has_value};
ghost use Rattle.plan_facts.specs.Costs.{or_measured};
ghost use Rattle.memo_entries.specs.Remembered.{memo_value, Placed, measured_fan, entry_of, fan_value};

use plan_facts::below::Measurement;

// The most keys: 64 atoms of 16 items.
pub const KEYS_MOST: usize = 1024;

// Where a key stands among the first m, m where it does not.
pub fn place_of(keys: &[u64], m: usize, key: u64) -> usize
    requires { m ≤ length keys.now }
    ensures { Placed keys.now m key result }
{
    for i in (0..m).rev() {
        if keys[i] / 2 == key {
            return i;
        }
    }
    m
}

// The value remembered at place i.
pub fn fan_at(keys: &[u64], values: &[f64], i: usize) -> Option<f64>
    requires i_in_bounds { i < length keys.now }
    requires i_in_bounds_2 { i < length values.now }
    ensures { result ≡ or_measured (memo_value (has_value (get_or keys.now i 0)) (get_or values.now i zero64)) None }
{
    if keys[i] % 2 == 1 {
        return Some(values[i]);
    }
    None
}

// A rejected sample has no value.
pub fn measured_fan(m: Measurement) -> Option<f64>
    ensures { result ≡ measured_fan m }
{
    match m {
        Measurement::NoDraws => None,
        Measurement::Accepted(x) => Some(x),
        Measurement::Rejected => None,
    }
}

// The entry of a key with that fan-out.
pub fn entry_of(key: u64, f: Option<f64>) -> u64
    requires { key < 0x1_0000_0000_0000 }
    ensures { result ≡ entry_of key f }
{
    match f {
        Some(_) => key * 2 + 1,
        None => key * 2,
    }
}

pub fn fan_value(f: Option<f64>) -> f64
    ensures { result ≡ fan_value f }
{
    match f {
        Some(x) => x,
        None => 0.0,
    }
}
