// A cost in words: its value, to three decimal places where it is neither very large nor very small, and its bits.
ghost use Rattle.std.specs.Prelude.{◌<◌};

use super::words::say;

// m over 2^k, the places behind the third left out.
fn say_over(rt: &HostRuntime, m: u64, k: u32)
    requires { k < 64 }
{
    let p = 1u64 << k;
    if p == 0 {
        return;
    }
    let rest = m % p;
    say!(rt; "{}", m / p);
    if rest == 0 || 0x20_0000_0000_0000 <= rest {
        return;
    }
    let thousandths = rest * 1000 / p;
    say!(rt; ".{thousandths:03}");
}

// m times 2^(e - 1075), as a double has it.
fn say_scaled(rt: &HostRuntime, m: u64, e: u64) {
    if 1075 < e {
        say!(rt; "{m} times 2^{}", e - 1075);
    } else if 1075 - e < 64 {
        say_over(rt, m, (1075 - e) as u32);
    } else {
        say!(rt; "less than 0.001");
    }
}

// The value of the bits of a double that is not below 0.
pub fn say_cost(rt: &HostRuntime, bits: u64) {
    let e = bits / 0x10_0000_0000_0000 % 2048;
    let m = bits % 0x10_0000_0000_0000;
    if e == 0 {
        say_scaled(rt, m, 1);
    } else {
        say_scaled(rt, m + 0x10_0000_0000_0000, e);
    }
    say!(rt; " ({bits:016x})");
}
