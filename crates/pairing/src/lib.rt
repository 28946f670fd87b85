// The pairing table, which the desk sets and no call writes to (docs/RULES.md, "Pairing table"): the call check.
// What the other calls ask of a table stands in `inner`.
#![tactic(auto)]

pub mod inner;

ghost use Rattle.std.specs.Prelude.{◌≡◌};
ghost use Rattle.tables.specs.Table.{check_says};
ghost use Rattle.pairing.specs.Meanings.{check_meaning};

use answers::Refusal;
use inner::survey::survey;

// The call check: how many places a table has.
pub fn check(table: &[u8]) -> Result<usize, Refusal>
    ensures { check_meaning result ≡ check_says table.now }
{
    Ok(survey(table, 0)?.places)
}
