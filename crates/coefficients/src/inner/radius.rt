// The choice of the radius.
ghost use Rattle.std.specs.Prelude.{◌≡◌, ◌≤◌, ◌<◌};
ghost use Rattle.tables.specs.Row.{radii_of};
ghost use Rattle.coefficients.specs.Radius.{miss_by, chosen_radius_number};

use rows::inner::row::{Row, radii, radius, step};

// By how much the radius of a number misses the total, |A - k x step|.
fn miss_by(row: &Row, total: usize, number: usize) -> usize
    requires { number < 8 }
    ensures { result ≡ miss_by row.now total number }
{
    total.abs_diff(radius(row, number).0 * step(row))
}

// The radius number that misses it by the least, the first of several.
pub fn choose(row: &Row, total: usize) -> usize
    requires { (1 ≤ radii_of row.now) × (radii_of row.now ≤ 8) }
    ensures { (result ≡ chosen_radius_number row.now total) × (result < 8) }
{
    let mut best = 0;
    let mut least = miss_by(row, total, 0);
    for number in 1..radii(row) {
        let miss = miss_by(row, total, number);
        if miss < least {
            best = number;
            least = miss;
        }
    }
    best
}
