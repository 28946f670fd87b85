// The counts that an index by pattern, shape and signs is made of, whatever field each shape has.
ghost use Rattle.std.specs.Prelude.{◌≡◌, ◌^◌, ◌≤◌, ◌<◌, get_or};
ghost use Rattle.counts.specs.Counts as counted;
ghost use Rattle.counts.specs.Counts.{D, S, B, range_size, range_start};
ghost use Rattle.counts.specs.Fields.{size_of, room_for, field_total};
ghost use Rattle.counts.specs.Width as widths;
ghost use Rattle.tables.specs.Largest.{largest_radii, lost_radii, largest_radius};

pub mod usable;

use counts::{Field, Length, Radius};

// The largest radius of each length whose N is at most 2^32; there is no length 0.
const LARGEST_RADII: [usize; 17] = [
    0, 32, 32, 32, 32, 32, 32, 32, 32, 27, 22, 18, 16, 15, 13, 12, 12,
];

// How many radii of each length a field of bits loses.
const LOST_RADII: [usize; 17] = [0, 0, 0, 0, 0, 0, 0, 0, 0, 1, 1, 0, 0, 1, 0, 0, 1];

// The largest radius of this length whose N is at most 2^32.
fn largest_by_count(length: Length) -> usize
    requires { (1 ≤ length.0) × (length.0 ≤ 16) }
    ensures { (result ≡ get_or largest_radii length.0 0) × (1 ≤ result) }
{
    LARGEST_RADII[length.0]
}

// How many radii of this length a field of bits loses.
fn lost_radii(length: Length) -> usize
    requires { (1 ≤ length.0) × (length.0 ≤ 16) }
    ensures { (result ≡ get_or lost_radii length.0 0) × (result ≤ 1) }
{
    LOST_RADII[length.0]
}

// The largest radius of a usable shell of this length.
pub fn largest_radius(field: Field, length: Length) -> usize
    requires { (1 ≤ length.0) × (length.0 ≤ 16) }
    ensures { result ≡ largest_radius field length.0 }
{
    let largest = largest_by_count(length);
    match field {
        Field::Exact => largest,
        Field::Bits => largest - lost_radii(length),
    }
}

// The width of a number: the least number of bits b with 2^b at least n.
pub fn width(n: u64) -> u32
    ensures { result ≡ widths.width n }
{
    u64::BITS - n.saturating_sub(1).leading_zeros()
}

// 2^b.
pub fn power(b: usize) -> u64
    requires { b < 64 }
    ensures { result ≡ 2 ^ b }
{
    1 << b
}

// The sign count 2^s.
pub fn sign_count(s: usize) -> u64
    requires { s < 64 }
    ensures { result ≡ B s }
{
    power(s)
}

// The largest number m of nonzero coordinates, the smaller of l and k.
pub fn most_nonzero(length: Length, radius: Radius) -> usize
    ensures { result ≡ counted.most_nonzero length.0 radius.0 }
{
    length.0.min(radius.0)
}

// The pattern count D(s,l), which is stored.
pub fn pattern_count(s: usize, length: Length) -> u32
    requires { (s ≤ 16) × (length.0 ≤ 16) }
    ensures { result ≡ D s length.0 }
{
    patterns::inner::look_up(s, length.0)
}

// The shape count S(s,k), which is worked out.
pub fn shape_count(s: usize, radius: Radius) -> u32
    requires { (0 < s) × (s ≤ 16) × (0 < radius.0) × (radius.0 ≤ 32) }
    ensures { result ≡ S s radius.0 }
{
    binomials::inner::binomial(radius.0 - 1, s - 1)
}

// The room of a field for so many shapes.
pub fn room(field: Field, shapes: u32) -> u32
    requires { shapes ≤ 2 ^ 31 }
    ensures { result ≡ room_for field shapes }
{
    match field {
        Field::Exact => shapes,
        Field::Bits => shapes.next_power_of_two(),
    }
}

// The size of the range for s: D x F x 2^s, where each shape has this field F.
pub fn range_size(field: Field, s: usize, length: Length, radius: Radius) -> u64
    requires { (0 < s) × (s ≤ 16) × (length.0 ≤ 16) × (0 < radius.0) × (radius.0 ≤ 32) }
    ensures { result ≡ range_size (size_of field) s length.0 radius.0 }
{
    let shapes = room(field, shape_count(s, radius));
    pattern_count(s, length) as u64 * shapes as u64 * sign_count(s)
}

// How many indices there are, from where the last range ends. Radius 0 has no range from 1 on, and the one index; the
// field and the length are what the contract speaks of.
pub fn total(field: Field, length: Length, radius: Radius, end: u64) -> u64
    requires { end ≡ range_start (size_of field) 0 length.0 radius.0 }
    ensures { result ≡ field_total (size_of field) length.0 radius.0 }
{
    if radius.0 == 0 { 1 } else { end }
}
