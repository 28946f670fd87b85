// The point of an index, written from the first coordinate on: each coordinate is zero or the next of the shape,
// and what is left are the components of a point that is one coordinate shorter.
ghost use Rattle.std.specs.Prelude.{◌≡◌, true, ◌∷◌, suc, ◌≤◌, ◌<◌};
ghost use Rattle.std.proofs.Math.ListN as listed;
ghost use Rattle.counts.specs.Counts.{S};
ghost use Rattle.counts.specs.Fields.{size_of};
ghost use Rattle.enumeration.specs.Reading.{product_point, product_names};
ghost use Rattle.product.specs.Components.{IsIndexOf, MakesPoint, written_from};
ghost use Rattle.product.specs.Steps.{IsFirstOf, Nonzero, taken};

use crate::inner::components::Components;
use crate::inner::range::Found;
use coordinates::inner::signed;
use counts::{Length, Radius};
use ranges::inner::usable::Shell;
use ranges::inner::{pattern_count, room, shape_count};

// The first magnitude of a shape, and the number of the shape that is left.
#[derive(Clone, Copy)]
struct First {
    magnitude: usize,
    left: u32,
}

// The first of s+1 magnitudes that sum to the radius, of the shape of this number, where there are others. S(s,k-1)
// shapes begin with 1, and as many as S(s,k-i) with i. A loop with one count in it was tried, and slower.
fn search_magnitude(s: usize, radius: Radius, shape: u32) -> First
    requires { (0 < s) × (s < 16) × (radius.0 ≤ 32) × (shape < S (suc s) radius.0) }
    ensures { IsFirstOf s radius.0 shape result.magnitude result.left }
{
    let sum = radius.0;
    let mut k = sum - 1;
    let mut left = shape;
    let mut begin = shape_count(s, Radius(k));
    while begin <= left {
        left -= begin;
        k -= 1;
        begin = shape_count(s, Radius(k));
    }
    First {
        magnitude: sum - k,
        left,
    }
}

// The same for any number of others. The last magnitude is all that is left; where there is one after it, one shape
// begins with each magnitude.
fn first_magnitude(s: usize, radius: Radius, shape: u32) -> First
    requires { (s < 16) × (radius.0 ≤ 32) × (shape < S (suc s) radius.0) }
    ensures { IsFirstOf s radius.0 shape result.magnitude result.left }
{
    match s {
        0 => First {
            magnitude: radius.0,
            left: 0,
        },
        1 => First {
            magnitude: shape as usize + 1,
            left: 0,
        },
        _ => search_magnitude(s, radius, shape),
    }
}

// A coordinate, and the components of what is left to write.
#[derive(Clone, Copy)]
struct Step {
    c: i32,
    left: Components,
}

// The first coordinate where it is nonzero: as many patterns as `zeros`, which begin with a zero, come before.
fn nonzero(components: Components, zeros: u32) -> Step
    requires { Nonzero components zeros }
    ensures { result ≡ taken components zeros }
{
    let s = components.s - 1;
    let first = first_magnitude(s, Radius(components.k), components.shape);
    let negative = (components.sign >> s) % 2 == 1;
    let left = Components {
        s,
        k: components.k - first.magnitude,
        pattern: components.pattern - zeros,
        shape: first.left,
        sign: components.sign,
    };
    Step {
        c: signed(negative, first.magnitude),
        left,
    }
}

// The first coordinate of a point, and the components of the rest, which is `behind` coordinates long.
fn next(components: Components, behind: usize) -> Step
    requires { MakesPoint components (suc behind) }
    ensures { MakesPoint result.left behind × (written_from components (suc behind) ≡ result.c ∷ written_from result.left behind) }
{
    let zeros = pattern_count(components.s, Length(behind));
    if components.pattern < zeros {
        return Step {
            c: 0,
            left: components,
        };
    }
    nonzero(components, zeros)
}

// The point that these are the components of, written into the whole buffer.
fn write(components: Components, out: &mut [i32])
    requires { MakesPoint components (listed.length out.old) }
    ensures { out.new ≡ written_from components (listed.length out.old) }
{
    let length = out.len();
    let mut left = components;
    for (at, c) in out.iter_mut().enumerate() {
        let step = next(left, length - at - 1);
        *c = step.c;
        left = step.left;
    }
}

// The components of the point of an index, from its position in its range. At radius 0 no coordinate is nonzero.
fn components_at(shell: Shell, n: u64, found: Found) -> Components
    requires { IsIndexOf shell n found × (product_names (size_of shell.field) shell.length.0 shell.radius.0 n ≡ true) }
    ensures { MakesPoint result shell.length.0
        × (product_point (size_of shell.field) shell.length.0 shell.radius.0 n ≡ written_from result shell.length.0) }
{
    let s = found.s;
    let k = shell.radius.0;
    let sign = n - found.start;
    if s == 0 {
        return Components {
            s,
            k,
            pattern: 0,
            shape: 0,
            sign,
        };
    }
    let block = (sign >> s) as u32;
    let shapes = room(shell.field, shape_count(s, shell.radius));
    Components {
        s,
        k,
        pattern: block / shapes,
        shape: block % shapes,
        sign,
    }
}

// The point of an index of the shell that names one.
pub fn write_point(shell: Shell, n: u64, found: Found, out: &mut [i32])
    requires { IsIndexOf shell n found × (product_names (size_of shell.field) shell.length.0 shell.radius.0 n ≡ true)
        × (listed.length out.old ≡ shell.length.0) }
    ensures { out.new ≡ product_point (size_of shell.field) shell.length.0 shell.radius.0 n }
{
    write(components_at(shell, n, found), out);
}
