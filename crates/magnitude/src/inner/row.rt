// Rows of counts: number j of the row of length l is N(l,j). No row is stored; the row of a length is made from that
// of the length before it, or of the length after it, by equation 10 of the paper. The radius is given each time and
// kept with no row: as a point is written, the radius up to which a row is needed falls.
ghost use Rattle.std.specs.Prelude.{◌≡◌, replicate};
ghost use Rattle.magnitude.specs.Rows.{counts_room, CountsTo, IsStart, Raised, Lowered, Raisable, Lowerable, Countable};

use counts::{Length, Radius};

// The row of length 0, in a row of zeros: the one point of no coordinates has radius 0.
pub fn start(counts: &mut [u64])
    requires { counts.old ≡ replicate counts_room 0 }
    ensures { IsStart counts.new }
{
    counts[0] = 1;
}

// The row of the length above, in the place of this one, up to a radius.
pub fn raise(counts: &mut [u64], radius: Radius)
    requires { Raisable radius.0 counts.old }
    ensures { Raised radius.0 counts.old counts.new }
{
    let mut last = counts[0];
    let mut before = last;
    for count in &mut counts[1..=radius.0] {
        let here = *count;
        last = last + here + before;
        *count = last;
        before = here;
    }
}

// The row of the length below, in the place of this one, up to a radius. One function for both, with a closure for the
// line that differs, would have to state what the closure may be called with, and be longer than the two.
pub fn lower(counts: &mut [u64], radius: Radius)
    requires { Lowerable radius.0 counts.old }
    ensures { Lowered radius.0 counts.old counts.new }
{
    let mut last = counts[0];
    let mut before = last;
    for count in &mut counts[1..=radius.0] {
        let here = *count;
        last = here - before - last;
        *count = last;
        before = here;
    }
}

// The row of a length, in a row of zeros.
pub fn make(counts: &mut [u64], length: Length, radius: Radius)
    requires { (counts.old ≡ replicate counts_room 0) × Countable length.0 radius.0 }
    ensures { CountsTo length.0 radius.0 counts.new }
{
    start(counts);
    for _ in 0..length.0 {
        raise(counts, radius);
    }
}
