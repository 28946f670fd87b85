// The coefficients of a vector: their check, their magnitudes, and their signs on the magnitudes of a point.
ghost use Rattle.std.specs.Prelude.{◌≡◌, ◌<◌, [], ◌∷◌, length, MatchOption};
ghost use Rattle.answers.specs.Checks.{first_of};
ghost use Rattle.answers.specs.Refusals.{verdict_meaning};
ghost use Rattle.coefficients.specs.Coefficients.{usable_checks, FirstAtFault, some_unusable, AllUsable};
ghost use Rattle.coefficients.specs.Points.{magnitudes_of, signed_by};
ghost use Rattle.shares.specs.Shares.{AllUpTo};

use answers::Refusal;
use coordinates::inner::signed;
use floats::inner::{is_negative, is_unusable, nearest_whole};

// The first coordinate at fault.
pub fn first_at_fault(coefficients: &[f32]) -> Option<usize>
    ensures { MatchOption result (FirstAtFault coefficients.now (length coefficients.now))
        (λ at. (at < length coefficients.now) × FirstAtFault coefficients.now at) }
{
    coefficients
        .iter()
        .position(|coefficient| is_unusable(*coefficient))
}

// Whether a coefficient is unusable. The loop looks at all of them, so that it can take several at a time.
pub fn some_unusable(coefficients: &[f32]) -> bool
    ensures { result ≡ some_unusable coefficients.now (length coefficients.now) }
{
    let mut some = false;
    for coefficient in coefficients {
        some |= is_unusable(*coefficient);
    }
    some
}

// The first coordinate at fault is refused.
pub fn check_coefficients(coefficients: &[f32]) -> Result<(), Refusal>
    ensures { verdict_meaning result ≡ first_of (usable_checks coefficients.now) (0 ∷ []) }
{
    match first_at_fault(coefficients) {
        Some(coordinate) => Err(Refusal::UnusableCoefficient { coordinate }),
        None => Ok(()),
    }
}

// The magnitudes. A `zip` of the two slices, here and below, takes one coefficient at a time and was slower.
pub fn write_magnitudes(coefficients: &[f32], out: &mut [u32])
    requires { AllUsable coefficients.now × (length out.old ≡ length coefficients.now) }
    ensures { out.new ≡ magnitudes_of coefficients.now }
{
    for (at, coefficient) in coefficients.iter().enumerate() {
        out[at] = nearest_whole(*coefficient);
    }
}

// The magnitudes of a point with the signs of the coefficients.
pub fn write_signed(coefficients: &[f32], magnitudes: &[u32], out: &mut [i32])
    requires { AllUpTo 32 magnitudes.now × (length magnitudes.now ≡ length coefficients.now) × (length out.old ≡ length coefficients.now) }
    ensures { out.new ≡ signed_by coefficients.now magnitudes.now }
{
    for (at, coefficient) in coefficients.iter().enumerate() {
        out[at] = signed(is_negative(*coefficient), magnitudes[at] as usize);
    }
}
