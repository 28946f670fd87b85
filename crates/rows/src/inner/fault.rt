// Whether a row is bad by itself.
ghost use Rattle.std.specs.Prelude.{◌≡◌, ◌≤◌, ◌<◌};
ghost use Rattle.answers.specs.Checks.{any_of};
ghost use Rattle.tables.specs.Row.{length_of, IsLargest, out_of_order, bad_radius, bad_radii, tail_faults, bad_row};

use crate::inner::row::{Row, byte, length, places, radii, radius, selector, step};
use ranges::inner::largest_radius;
use selectors::inner::Selected;

// A radius other than 0 in front, or not larger than the one before.
fn out_of_order(row: &Row, number: usize) -> bool
    requires { number < 8 }
    ensures { result ≡ out_of_order row.now number }
{
    if number == 0 {
        radius(row, 0).0 != 0
    } else {
        radius(row, number).0 <= radius(row, number - 1).0
    }
}

// The largest usable radius of a row, by the total of the row's own enumeration.
fn largest_in(row: &Row) -> usize
    requires { (1 ≤ length_of row.now) × (length_of row.now ≤ 16) }
    ensures { IsLargest row.now result }
{
    let field = Selected::from(selector(row)).field();
    largest_radius(field, length(row))
}

// A radius out of order or above the largest usable one, or an unused position that is not 0.
#[tactic(auto, using(tables::proofs::Faults::unused_says, tables::proofs::Faults::disorder_says, tables::proofs::Faults::used_says))]
fn bad_radius(row: &Row, most: usize, number: usize) -> bool
    requires { IsLargest row.now most × (number < 8) }
    ensures { result ≡ bad_radius row.now number }
{
    if radii(row) <= number {
        return radius(row, number).0 != 0;
    }
    out_of_order(row, number) || most < radius(row, number).0
}

#[tactic(auto, using(tables::proofs::Faults::radius_bad, tables::proofs::Faults::radius_good), unfolding(tables::specs::Row::bad_radii))]
fn bad_radii(row: &Row) -> bool
    requires { (1 ≤ length_of row.now) × (length_of row.now ≤ 16) }
    ensures { result ≡ bad_radii row.now 8 }
{
    let most = largest_in(row);
    for number in 0..8 {
        if bad_radius(row, most, number) {
            return true;
        }
    }
    false
}

// What stands behind the radii: the step, the places, the selector, a zero.
fn bad_tail(row: &Row) -> bool
    ensures { result ≡ any_of (tail_faults row.now) }
{
    step(row) < 1 || places(row) < 1 || 2 < selector(row).0 || byte(row, 15) != 0
}

// A row that is bad by itself.
#[tactic(auto, unfolding(tables::specs::Row::bad_row))]
pub fn bad_row(row: &Row) -> bool
    ensures { result ≡ bad_row row.now }
{
    let l = length(row).0;
    let n = radii(row);
    l < 1 || 16 < l || n < 1 || 8 < n || bad_radii(row) || bad_tail(row)
}
