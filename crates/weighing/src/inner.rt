// The index of a point, in one pass from its last coordinate: the weight of what stands from a coordinate on is
// made of that of what stands after it.
ghost use Rattle.std.specs.Prelude.{◌≡◌, ◌+◌, ◌-◌, ◌*◌, ◌≤◌, ◌<◌, true, nat_abs};
ghost use Rattle.std.proofs.Math.ListN as listed;
ghost use Rattle.counts.specs.Counts.{B};
ghost use Rattle.counts.specs.Fields.{size_of};
ghost use Rattle.enumeration.specs.Point.{OnShell, radius_of, is_nonzero, is_negative};
ghost use Rattle.enumeration.specs.Product.{sign_bit, product_index};
ghost use Rattle.weighing.specs.Weights.{nothing, weight_of, extended, in_front, Room, Summable, weighed, Weighable};

use coordinates::inner::magnitude;
use counts::{Length, Radius};
use ranges::inner::usable::Shell;
use ranges::inner::{pattern_count, room, shape_count, sign_count};

// Of some coordinates: the number s of those that are nonzero, their sum k, the pattern index, the number of shapes
// that come after theirs, and the sign index.
#[derive(Clone, Copy, Default)]
pub struct Weight {
    pub s: usize,
    pub k: usize,
    pub pattern: u32,
    pub after: u32,
    pub sign: u64,
}

// What the sign of a nonzero coordinate adds to the sign index, with s nonzero coordinates after it.
fn sign_weight(negative: bool, s: usize) -> u64
    requires { s < 64 }
    ensures { result ≡ sign_bit negative * B s }
{
    if negative { sign_count(s) } else { 0 }
}

// The weight of a nonzero coordinate of this magnitude and sign with `left` zeros after it: as many patterns come
// before, and no shape after.
fn last_nonzero(i: usize, negative: bool, left: Length) -> Weight
    requires { left.0 ≤ 16 }
    ensures { result ≡ extended nothing i negative left.0 }
{
    Weight {
        s: 1,
        k: i,
        pattern: left.0 as u32,
        after: 0,
        sign: sign_weight(negative, 0),
    }
}

// The weight with a nonzero coordinate in front of some others, of this magnitude and sign; after it stand `left`
// coordinates. The patterns before it have a zero there, the shapes after it a larger magnitude.
fn with_others(behind: Weight, i: usize, negative: bool, left: Length) -> Weight
    requires { Room behind i negative left.0 × (0 < behind.k) }
    ensures { result ≡ extended behind i negative left.0 }
{
    let s = behind.s + 1;
    Weight {
        s,
        k: i + behind.k,
        pattern: pattern_count(s, left) + behind.pattern,
        after: shape_count(s, Radius(behind.k)) + behind.after,
        sign: sign_weight(negative, behind.s) + behind.sign,
    }
}

// The same with one other: D(2,l) and S(2,k), without a look-up.
fn with_one_other(behind: Weight, i: usize, negative: bool, left: Length) -> Weight
    requires { Room behind i negative left.0 × (0 < behind.k) × (behind.s ≡ 1) }
    ensures { result ≡ extended behind i negative left.0 }
{
    let l = left.0;
    Weight {
        s: 2,
        k: i + behind.k,
        pattern: ((l * l - l) / 2) as u32 + behind.pattern,
        after: (behind.k - 1) as u32 + behind.after,
        sign: sign_weight(negative, 1) + behind.sign,
    }
}

// The same for any number of others.
fn with_nonzero(behind: Weight, i: usize, negative: bool, left: Length) -> Weight
    requires { Room behind i negative left.0 }
    ensures { result ≡ extended behind i negative left.0 }
{
    match behind.s {
        0 => last_nonzero(i, negative, left),
        1 => with_one_other(behind, i, negative, left),
        _ => with_others(behind, i, negative, left),
    }
}

// The weight with a coordinate in front of `left` others.
fn with_coordinate(behind: Weight, c: i32, left: Length) -> Weight
    requires { is_nonzero c ≡ true → Room behind (nat_abs c) (is_negative c) left.0 }
    ensures { result ≡ in_front behind c left.0 }
{
    if c == 0 {
        return behind;
    }
    with_nonzero(behind, magnitude(c) as usize, c < 0, left)
}

// The weight of a point, from its last coordinate on.
fn weight_of(x: &[i32]) -> Weight
    requires { (listed.length x.now ≤ 16) × (radius_of x.now ≤ 32) }
    ensures { result ≡ weight_of x.now }
{
    let mut weight = Weight::default();
    for (left, c) in x.iter().rev().enumerate() {
        weight = with_coordinate(weight, *c, Length(left));
    }
    weight
}

// What a weight sums up to: start + (pattern x room + shape) x signs + sign, with the room of the shape field. The
// shape is as many before the last one as come after it.
fn sum_up(weight: Weight, start: u64, shapes: u64, room: u64, signs: u64) -> u64
    requires { Summable weight start shapes room signs }
    ensures { result ≡ start + (weight.pattern * room + (shapes - 1 - weight.after)) * signs + weight.sign }
{
    let shape = shapes - 1 - weight.after as u64;
    start + (weight.pattern as u64 * room + shape) * signs + weight.sign
}

// The index of the point of this weight. At radius 0 there are no nonzero coordinates, and the index is 0.
fn weigh(shell: Shell, weight: Weight) -> u64
    requires { Weighable (size_of shell.field) shell.length.0 shell.radius.0 weight }
    ensures { result ≡ weighed (size_of shell.field) shell.length.0 shell.radius.0 weight }
{
    let s = weight.s;
    if s == 0 {
        return 0;
    }
    let shapes = shape_count(s, shell.radius);
    let room = room(shell.field, shapes);
    sum_up(
        weight,
        shell.range_start(s),
        shapes as u64,
        room as u64,
        sign_count(s),
    )
}

// The index of a point of the shell.
pub fn index_of(shell: Shell, x: &[i32]) -> u64
    requires { OnShell shell.length.0 shell.radius.0 x.now }
    ensures { result ≡ product_index (size_of shell.field) x.now }
{
    weigh(shell, weight_of(x))
}
