// The range of an index: the number s of nonzero coordinates of its point, and where the range starts; and whether the
// index names a point.
ghost use Rattle.std.specs.Prelude.{◌≡◌, ltb};
ghost use Rattle.counts.specs.Counts.{range_start};
ghost use Rattle.counts.specs.Fields.{size_of, field_total};
ghost use Rattle.enumeration.specs.Reading.{range_of, product_names};
ghost use Rattle.product.specs.Components.{IsIndexOf};

use counts::Field;
use ranges::inner::usable::Shell;
use ranges::inner::{most_nonzero, range_size, room, shape_count};

// Where an index stands among the others, as a search found it: in the range for s, which starts there.
#[derive(Clone, Copy)]
pub struct Found {
    pub s: usize,
    pub start: u64,
}

impl Found {
    // What stands for an index where there is none, or nothing to tell.
    pub const NOWHERE: Found = Found { s: 0, start: 0 };
}

// The first range, counted down from s = m, that holds n: as each starts where the one before ends, the first that
// ends past n. Where none does, s is 0 and the start is the end of the last.
pub fn locate(shell: Shell, n: u64) -> Found
    ensures { (result.s ≡ range_of (size_of shell.field) shell.length.0 shell.radius.0 n)
        × (result.start ≡ range_start (size_of shell.field) result.s shell.length.0 shell.radius.0) }
{
    let mut s = most_nonzero(shell.length, shell.radius);
    let mut start = 0;
    // The loop is to yield both by break: a range has no such end.
    let found = loop {
        if s == 0 {
            break Found { s, start };
        }
        let end = start + range_size(shell.field, s, shell.length, shell.radius);
        if n < end {
            break Found { s, start };
        }
        start = end;
        s -= 1;
    };
    found
}

// Whether the index is below the total. Radius 0 has no range from 1 on, and the one index 0.
pub fn holds(shell: Shell, n: u64, found: Found) -> bool
    requires { found.s ≡ range_of (size_of shell.field) shell.length.0 shell.radius.0 n }
    ensures { result ≡ ltb n (field_total (size_of shell.field) shell.length.0 shell.radius.0) }
{
    if 0 < found.s {
        return true;
    }
    if 0 < shell.radius.0 {
        return false;
    }
    n == 0
}

// Whether the shape field of an index is the number of a shape. At radius 0 there is one shape.
fn is_shape(shell: Shell, n: u64, found: Found) -> bool
    requires { IsIndexOf shell n found }
    ensures { result ≡ product_names (size_of shell.field) shell.length.0 shell.radius.0 n }
{
    let s = found.s;
    if s == 0 {
        return true;
    }
    let block = ((n - found.start) >> s) as u32;
    let shapes = shape_count(s, shell.radius);
    block % room(shell.field, shapes) < shapes
}

// Whether an index below the total names a point. Where the field is exact, each does.
pub fn names(shell: Shell, n: u64, found: Found) -> bool
    requires { IsIndexOf shell n found }
    ensures { result ≡ product_names (size_of shell.field) shell.length.0 shell.radius.0 n }
{
    match shell.field {
        Field::Exact => true,
        Field::Bits => is_shape(shell, n, found),
    }
}
