// The tests of the bytes of one field, by their values.
ghost use Rattle.std.specs.Prelude.{◌≡◌, ◌<◌};
ghost use Rattle.field_values.specs.FieldValues.{used_or_zero, site_fits, path_fits, ends_fit, rest_fits, both_zero, lookup_fits, real_fits};

fn used_or_zero(used: bool, b: u8) -> bool
    ensures { result ≡ used_or_zero used b }
{
    used || b == 0
}

pub fn site_fits(site: u8, position: u8) -> bool
    ensures { result ≡ site_fits site position }
{
    site <= 2 && used_or_zero(site == 1, position)
}

pub fn path_fits(path: u8, position: u8) -> bool
    ensures { result ≡ path_fits path position }
{
    path <= 1 && used_or_zero(path == 0, position)
}

pub fn ends_fit(flags: u8, pre: u8, suf: u8) -> bool
    ensures { result ≡ ends_fit flags pre suf }
{
    flags <= 3 && used_or_zero(flags % 2 == 1, pre) && used_or_zero(2 <= flags, suf)
}

pub fn rest_fits(flag: u8, rest: u8) -> bool
    ensures { result ≡ rest_fits flag rest }
{
    flag <= 1 && used_or_zero(flag == 1, rest)
}

fn zeros(b: u8, c: u8) -> bool
    ensures { result ≡ both_zero b c }
{
    b == 0 && c == 0
}

pub fn lookup_fits(tag: u8, a: u8, b: u8, c: u8) -> bool
    ensures { result ≡ lookup_fits tag a b c }
{
    match tag {
        0 | 2 => zeros(b, c),
        1 => a <= 1,
        3 => a <= 1 && c == 0,
        _ => false,
    }
}

pub fn real_fits(bits: u64) -> bool
    ensures { result ≡ real_fits bits }
{
    bits == 0x8000_0000_0000_0000 || bits < 0x7ff0_0000_0000_0000
}
