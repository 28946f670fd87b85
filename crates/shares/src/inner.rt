// The radius shared out among the coordinates by largest remainders.
ghost use Rattle.std.specs.Prelude.{◌≡◌, map, ◌+◌, ◌≤◌, ◌<◌, ◌^◌, length};
ghost use Rattle.enumeration.specs.Point.{sum_of};
ghost use Rattle.shares.specs.Shares as sharing;
ghost use Rattle.shares.specs.Shares.{AllUpTo, Sharable, whole_part, remainder, remainders, units_left, left_of};

pub fn sum(numbers: &[u32]) -> u32
    requires { (length numbers.now ≤ 16) × AllUpTo (2 ^ 23) numbers.now }
    ensures { (result ≡ sum_of numbers.now) × (result ≤ 2 ^ 27) }
{
    numbers.iter().sum()
}

// In the place of each magnitude a the whole part of k x a / A, and in `rests` the remainder.
fn divide(k: u32, total: u32, magnitudes: &mut [u32], rests: &mut [u32])
    requires { (k ≤ 32) × (0 < total) × AllUpTo (2 ^ 23) magnitudes.old × (length rests.old ≡ length magnitudes.old) }
    ensures { (magnitudes.new ≡ map (whole_part k total) magnitudes.old)
        × (rests.new ≡ map (remainder k total) magnitudes.old) }
{
    for (at, magnitude) in magnitudes.iter_mut().enumerate() {
        let scaled = k * *magnitude;
        *magnitude = scaled / total;
        rests[at] = scaled % total;
    }
}

// The coordinate with the largest remainder, the first of several.
fn largest(rests: &[u32]) -> usize
    requires { 0 < length rests.now }
    ensures { (result ≡ sharing.largest rests.now) × (result < length rests.now) }
{
    let mut best = 0;
    let mut most = rests[0];
    for (at, rest) in rests.iter().enumerate() {
        if most < *rest {
            best = at;
            most = *rest;
        }
    }
    best
}

// One more to each of the largest remainders, which are then spent.
fn give(units: usize, rests: &mut [u32], shares: &mut [u32])
    requires { (0 < length shares.old) × (length rests.old ≡ length shares.old) × (sum_of shares.old + units ≤ 32) }
    ensures { (shares.new ≡ sharing.give units rests.old shares.old)
        × (rests.new ≡ left_of units rests.old) }
{
    for _ in 0..units {
        let at = largest(rests);
        rests[at] = 0;
        shares[at] += 1;
    }
}

// The magnitudes of the point of a radius above 0, in the place of the magnitudes a, whose sum is `total`; and in
// `rests` the remainders that got no unit.
pub fn share(k: usize, total: u32, magnitudes: &mut [u32], rests: &mut [u32])
    requires { Sharable k total magnitudes.old rests.old }
    ensures { (magnitudes.new ≡ sharing.shared k magnitudes.old)
        × (rests.new ≡ left_of (units_left k magnitudes.old) (remainders k magnitudes.old)) }
{
    divide(k as u32, total, magnitudes, rests);
    let units = k - sum(magnitudes) as usize;
    give(units, rests, magnitudes);
}
