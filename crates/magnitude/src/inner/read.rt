// The point of an index, written from the first coordinate on: what is left behind each is the point of an index too,
// one coordinate shorter.
ghost use Rattle.std.specs.Prelude.{◌≡◌, suc, ◌-◌, ◌<◌};
ghost use Rattle.std.proofs.Math.ListN as listed;
ghost use Rattle.enumeration.specs.Magnitude.{magnitude_point};
ghost use Rattle.counts.specs.Counts.{N};
ghost use Rattle.magnitude.specs.Rows.{counts_room, CountsTo, Countable};
ghost use Rattle.magnitude.specs.Steps.{point_left, Writable, Passable, IsPassed, IsStep};

use crate::inner::row::{lower, make};
use coordinates::inner::signed;
use counts::{Length, Radius};

// What is left to write: the point of index n among those of radius k.
#[derive(Clone, Copy)]
pub struct Left {
    pub k: usize,
    pub n: u64,
}

// A coordinate, and what is left to write behind it.
#[derive(Clone, Copy)]
pub struct Step {
    pub c: i32,
    pub left: Left,
}

// Among the points that begin with no zero, those with a smaller first magnitude are passed: twice as many begin with
// each as the row of counts has for what the magnitude leaves. A `for` that counts k down tests each k too, and was
// slower.
fn pass(counts: &[u64], left: Left) -> Left
    requires { Passable counts.now left.k left.n }
    ensures { IsPassed counts.now left.k left.n result }
{
    let Left { mut k, mut n } = left;
    loop {
        k -= 1;
        let both = 2 * counts[k];
        if n < both {
            return Left { k, n };
        }
        n -= both;
    }
}

// The first coordinate, and what is left behind it, which is `behind` coordinates long; the row of counts is that of
// this length. The last coordinate is all that is left. The points that begin with a zero come first; of those that
// begin with the same magnitude, those with the positive value.
fn next(counts: &[u64], left: Left, behind: usize) -> Step
    requires { Writable left (suc behind) × CountsTo behind left.k counts.now × (listed.length counts.now ≡ counts_room) }
    ensures { IsStep left behind result }
{
    if behind == 0 {
        return Step {
            c: signed(0 < left.n, left.k),
            left: Left { k: 0, n: 0 },
        };
    }
    let k = left.k;
    let zeros = counts[k];
    if left.n < zeros {
        return Step { c: 0, left };
    }
    let passed = pass(
        counts,
        Left {
            k,
            n: left.n - zeros,
        },
    );
    let rest = passed.k;
    let positive = counts[rest];
    let negative = positive <= passed.n;
    let n = if negative {
        passed.n - positive
    } else {
        passed.n
    };
    Step {
        c: signed(negative, k - rest),
        left: Left { k: rest, n },
    }
}

// The point that is left, written into the whole buffer; the row of counts is that of one coordinate less.
fn write(left: Left, counts: &mut [u64], out: &mut [i32])
    requires { Writable left (listed.length out.old) × CountsTo (listed.length out.old - 1) left.k counts.old
        × (listed.length counts.old ≡ counts_room) }
    ensures { out.new ≡ point_left left (listed.length out.old) }
{
    let mut left = left;
    for at in 0..out.len() {
        let step = next(counts, left, out.len() - at - 1);
        out[at] = step.c;
        left = step.left;
        lower(counts, Radius(left.k));
    }
}

// The point of an index below N of a usable shell.
pub fn write_point(radius: Radius, n: u64, out: &mut [i32])
    requires { (0 < listed.length out.old) × Countable (listed.length out.old) radius.0 × (n < N (listed.length out.old) radius.0) }
    ensures { out.new ≡ magnitude_point (listed.length out.old) radius.0 n }
{
    let mut counts = [0u64; 33];
    make(&mut counts, Length(out.len() - 1), radius);
    write(Left { k: radius.0, n }, &mut counts, out);
}
