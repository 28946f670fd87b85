// The calls index and point (docs/RULES.md, "Enumerations"). How the points of a shell are numbered stands in
// `numbering`.
#![tactic(auto)]

ghost use Rattle.std.specs.Prelude.{◌≡◌, [], ◌∷◌};
ghost use Rattle.std.proofs.Math.ListN as listed;
ghost use Rattle.answers.specs.Checks.{first_of, leaves};
ghost use Rattle.answers.specs.Refusals.{verdict_meaning};
ghost use Rattle.numbering.specs.Numbered.{enumeration_in, index_in, point_in};
ghost use Rattle.indexing.specs.Calls.{selected_checks, index_rest, index_says, point_rest, point_says, point_leaves};
ghost use Rattle.points.specs.Meanings.{index_meaning, point_meaning};

use answers::Refusal;
use coordinates::inner::magnitude_sum;
use counts::{Length, Radius};
use enumeration::Selector;
use numbering::inner::{Missed, Numbering};
use selectors::inner::Selected;
use shell::check_shell;

// The call index: the index of a point of the shell, by the enumeration that is selected.
pub fn index(selector: Selector, length: Length, radius: Radius, x: &[i32]) -> Result<u64, Refusal>
    ensures { index_meaning result ≡ index_says selector.0 length.0 radius.0 x.now }
{
    check_selected(selector, length, radius)?;
    let numbering = Numbering {
        selected: Selected::from(selector),
        length,
        radius,
    };
    index_usable(numbering, x)
}

// The call point: the point of an index of the shell, by the enumeration that is selected, written into the lent buffer
// once every check has passed.
pub fn point(
    selector: Selector,
    length: Length,
    radius: Radius,
    n: u64,
    out: &mut [i32],
) -> Result<(), Refusal>
    ensures { (point_meaning result ≡ point_says selector.0 length.0 radius.0 n out.old)
        × (out.new ≡ point_leaves selector.0 length.0 radius.0 n out.old) }
{
    check_selected(selector, length, radius)?;
    let numbering = Numbering {
        selected: Selected::from(selector),
        length,
        radius,
    };
    point_usable(numbering, n, out)
}

// The checks 20, 1, 2 and 3, which both calls begin with.
fn check_selected(selector: Selector, length: Length, radius: Radius) -> Result<(), Refusal>
    ensures { verdict_meaning result ≡ first_of (selected_checks selector.0 length.0 radius.0) (0 ∷ []) }
{
    if 2 < selector.0 {
        return Err(Refusal::NoSuchEnumeration);
    }
    check_shell(Selected::from(selector).field(), length, radius)
}

// What index does in a usable shell: the checks 4 and 5, and the work.
fn index_usable(numbering: Numbering, x: &[i32]) -> Result<u64, Refusal>
    ensures { index_meaning result
        ≡ first_of (index_rest numbering.length.0 numbering.radius.0 x.now) (0 ∷ index_in numbering x.now ∷ []) }
{
    if x.len() != numbering.length.0 {
        return Err(Refusal::BufferLength);
    }
    if magnitude_sum(x) != numbering.radius.0 as u64 {
        return Err(Refusal::MagnitudeSum);
    }
    Ok(numbering.index(x))
}

// What point does in a usable shell: the checks 4, 6 and 15, and the work.
fn point_usable(numbering: Numbering, n: u64, out: &mut [i32]) -> Result<(), Refusal>
    ensures { (point_meaning result
        ≡ first_of (point_rest (enumeration_in numbering) numbering.length.0 numbering.radius.0 n (listed.length out.old)) (0 ∷ []))
        × (out.new
        ≡ leaves (point_rest (enumeration_in numbering) numbering.length.0 numbering.radius.0 n (listed.length out.old))
        (point_in numbering n) out.old) }
{
    if out.len() != numbering.length.0 {
        return Err(Refusal::BufferLength);
    }
    match numbering.seek(n) {
        Ok(found) => {
            numbering.write_point(n, found, out);
            Ok(())
        }
        Err(Missed::Empty) => Err(Refusal::EmptyShape),
        Err(Missed::Past { total }) => Err(Refusal::IndexPastEnd {
            distance: n - total,
        }),
    }
}
