// The shells and their counts (docs/RULES.md, "Points and counts"): the call count, and the width of a total. What
// the counts are made of stands in `ranges`.
#![tactic(auto)]

ghost use Rattle.std.specs.Prelude.{◌≡◌, [], ◌∷◌};
ghost use Rattle.answers.specs.Checks.{first_of};
ghost use Rattle.answers.specs.Refusals.{verdict_meaning};
ghost use Rattle.counts.specs.Fields.{size_of, field_total};
ghost use Rattle.counts.specs.Width as widths;
ghost use Rattle.tables.specs.Usable.{shell_checks};
ghost use Rattle.shell.specs.Shell.{count_meaning, count_says};

use answers::Refusal;
use counts::{Field, Length, Radius};
use ranges::inner::largest_radius;
use ranges::inner::usable::Shell;

// The call count: how many points a shell has.
pub fn count(length: Length, radius: Radius) -> Result<u64, Refusal>
    ensures { count_meaning result ≡ count_says length.0 radius.0 }
{
    check_shell(Field::Exact, length, radius)?;
    let shell = Shell {
        field: Field::Exact,
        length,
        radius,
    };
    Ok(shell.index_count())
}

// The checks 1, 2 and 3, by the total that a shape field makes: those of count, and of index and point behind that of
// the selector.
pub fn check_shell(field: Field, length: Length, radius: Radius) -> Result<(), Refusal>
    ensures { verdict_meaning result
        ≡ first_of (shell_checks length.0 radius.0 (field_total (size_of field) length.0 radius.0)) (0 ∷ []) }
{
    if length.0 < 1 {
        return Err(Refusal::LengthOutside);
    }
    if 16 < length.0 {
        return Err(Refusal::LengthOutside);
    }
    if 32 < radius.0 {
        return Err(Refusal::RadiusAbove);
    }
    if largest_radius(field, length) < radius.0 {
        return Err(Refusal::ShellTooLarge);
    }
    Ok(())
}

// The width of a total: the least number of bits b with 2^b at least n.
pub fn width(n: u64) -> u32
    ensures { result ≡ widths.width n }
{
    ranges::inner::width(n)
}
