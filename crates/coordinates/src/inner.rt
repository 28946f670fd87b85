// A coordinate, an i32 of any value: its magnitude and its sign, taken apart and put together again.
ghost use Rattle.std.specs.Prelude.{◌≡◌, ◌^◌, ◌≤◌, nat_abs, length};
ghost use Rattle.enumeration.specs.Point as points;
ghost use Rattle.enumeration.specs.Point.{radius_of};

// The magnitude; the lowest value's is 2^31.
pub fn magnitude(c: i32) -> u64
    ensures { (result ≡ nat_abs c) × (result ≤ 2 ^ 31) }
{
    u64::from(c.unsigned_abs())
}

// The sum of the magnitudes of a vector, summed wide.
pub fn magnitude_sum(x: &[i32]) -> u64
    requires { length x.now ≤ 16 }
    ensures { result ≡ radius_of x.now }
{
    x.iter().map(|c| magnitude(*c)).sum()
}

// A magnitude with its sign restored by negation.
pub fn signed(negative: bool, i: usize) -> i32
    requires { i ≤ 32 }
    ensures { result ≡ points.signed negative i }
{
    let c = i as i32;
    if negative { -c } else { c }
}
