// Whether refusal 12 is given for a cell, and the page rule.
ghost use Rattle.std.specs.Prelude.{◌≡◌, length};
ghost use Rattle.records.specs.Record.{record_length};
ghost use Rattle.layout.specs.Layout.{set_cell};
ghost use Rattle.rules.specs.Taking.{arrive_cell, take_cell};
ghost use Rattle.cells.specs.Spots.{SpotIn, page_there, cell_there, bad_named, bad_there};

use crate::inner::spot::Spot;
use layout::inner::{record_at, set_cell, state_at};
use records::inner::{Named, named_in};

// Whether the cell of a place has a state above 2, or holds a record of another book, another place or another row than
// these.
#[tactic(auto, unfolding(rules::specs::Taking::bad_cell))]
fn bad_cell(named: Named, state: u8, bytes: &[u8]) -> bool
    requires { length bytes.now ≡ record_length }
    ensures { result ≡ bad_named named (record { state = state; bytes = bytes.now }) }
{
    2 < state || (state == 1 && named_in(bytes) != named)
}

// The same of the cell of a place.
pub fn bad_at(page: &[u8], spot: Spot) -> bool
    requires { SpotIn page.now spot }
    ensures { result ≡ bad_there page.now spot }
{
    bad_cell(
        spot.named,
        state_at(page, spot.position),
        record_at(page, spot.position),
    )
}

// The page rule: empty becomes held, held with other bytes becomes contested, and otherwise the cell stays.
#[tactic(auto, using(crate::proofs::Spots::stays), unfolding(rules::specs::Taking::take_cell))]
fn take_cell(page: &mut [u8], spot: Spot, bytes: &[u8])
    requires { SpotIn page.old spot × (length bytes.now ≡ record_length) }
    ensures { page_there page.new spot
        ≡ set_cell (page_there page.old spot) spot.position.cell (take_cell bytes.now (cell_there page.old spot)) }
{
    let at = spot.position;
    match state_at(page, at) {
        0 => set_cell(page, at, 1, bytes),
        1 if record_at(page, at) != bytes => set_cell(page, at, 2, &[0; 8]),
        _ => {}
    }
}

// A record into the cell of the place that it names, unless refusal 12 is given for the cell; whether it is given.
#[tactic(auto, using(crate::proofs::Spots::stays))]
pub fn arrive(page: &mut [u8], spot: Spot, bytes: &[u8]) -> bool
    requires { SpotIn page.old spot × (length bytes.now ≡ record_length) }
    ensures { (result ≡ bad_there page.old spot)
        × (page_there page.new spot ≡ set_cell (page_there page.old spot) spot.position.cell
        (arrive_cell spot.named.book spot.named.place spot.named.row bytes.now (cell_there page.old spot))) }
{
    if bad_at(page, spot) {
        return true;
    }
    take_cell(page, spot, bytes);
    false
}
