// The index of a point, in one pass from its last coordinate: that of what stands from a coordinate on is made of that
// of what stands behind.
ghost use Rattle.std.specs.Prelude.{◌≡◌, suc, ◌<◌};
ghost use Rattle.std.proofs.Math.ListN as listed;
ghost use Rattle.enumeration.specs.Magnitude.{magnitude_index};
ghost use Rattle.magnitude.specs.Tails.{Weighable, Gathered};

use crate::inner::row::{raise, start};
use coordinates::inner::magnitude;
use counts::Radius;

// Of some coordinates: what their magnitudes sum to, and their index.
#[derive(Clone, Copy)]
pub struct Tail {
    pub sum: usize,
    pub index: u64,
}

// The tail with the coordinate at `at` in front. The row of counts is that of the length of `behind`, and then that of
// one more; a coordinate adds its offset (eq. 6), for which counts of both rows are needed.
fn with_coordinate(behind: Tail, x: &[i32], at: usize, counts: &mut [u64], radius: Radius) -> Tail
    requires { (at < listed.length x.now) × Weighable radius.0 x.now × Gathered radius.0 x.now (suc at) counts.old behind }
    ensures { Gathered radius.0 x.now at counts.new result }
{
    let c = x[at];
    let left = behind.sum;
    let rest = counts[left];
    raise(counts, radius);
    if c == 0 {
        return behind;
    }
    let sum = left + magnitude(c) as usize;
    let from = counts[sum] - counts[left];
    let offset = if c < 0 { from } else { from - rest };
    Tail {
        sum,
        index: offset + behind.index,
    }
}

// The index of a point of a usable shell.
pub fn index_of(radius: Radius, x: &[i32]) -> u64
    requires { Weighable radius.0 x.now }
    ensures { result ≡ magnitude_index x.now }
{
    let mut counts = [0u64; 33];
    start(&mut counts);
    let mut tail = Tail { sum: 0, index: 0 };
    for at in (0..x.len()).rev() {
        tail = with_coordinate(tail, x, at, &mut counts, radius);
    }
    tail.index
}
