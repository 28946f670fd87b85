// A coefficient, an f32 of any bit pattern: made of its pattern; whether it can be used, its sign, and the whole
// number that it becomes; and back, the f32 of a whole number over 256.
ghost use Rattle.std.specs.Prelude.{◌≡◌, false, ◌^◌, ◌≤◌, ◌<◌, nat_abs};
ghost use Rattle.std.specs.Float.{binary32};
ghost use Rattle.std.specs.Float.Ieee.{of_bits};
ghost use Rattle.floats.specs.Units.{unusable_coefficient, negative};
ghost use Rattle.floats.specs.Nearest.{nearest_whole};
ghost use Rattle.floats.specs.Exact.{over256};

// The patterns of NaN are those beyond infinity's, with the sign off. The library's `from_bits` takes none of them.
pub fn from_pattern(bits: u32) -> f32
    ensures { result ≡ of_bits binary32 bits }
{
    if 2139095040 < bits % 2147483648 {
        return f32::NAN;
    }
    f32::from_bits(bits)
}

// A NaN is neither above nor below anything, so it falls through both comparisons.
pub fn is_unusable(x: f32) -> bool
    ensures { result ≡ unusable_coefficient x }
{
    if x < 32768.0 {
        if -32768.0 < x {
            return false;
        }
    }
    true
}

pub fn is_negative(x: f32) -> bool
    ensures { result ≡ negative x }
{
    x < 0.0
}

// Beside 2^23 an f32 has no room for a fraction: the addition itself rounds to the nearest whole number, ties to
// even.
fn rounded(x: f32) -> u32
    requires { (unusable_coefficient x ≡ false) × (negative x ≡ false) }
    ensures { (result ≡ nearest_whole x) × (result ≤ 2 ^ 23) }
{
    (x * 256.0 + 8388608.0) as u32 - 8388608
}

// The magnitude of the whole number nearest to 256x. The library's `abs` tests for zero too, and was slower.
pub fn nearest_whole(x: f32) -> u32
    requires { unusable_coefficient x ≡ false }
    ensures { (result ≡ nearest_whole x) × (result ≤ 2 ^ 23) }
{
    if is_negative(x) {
        return rounded(-x);
    }
    rounded(x)
}

// A whole number over 256. Below 2^24 neither the conversion nor the division rounds.
pub fn over_256(z: i32) -> f32
    requires { nat_abs z < 2 ^ 24 }
    ensures { result ≡ over256 z }
{
    z as f32 / 256.0
}
