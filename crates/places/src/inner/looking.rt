// A place looked at, as the readers, the tally and the listing do it: refusal 12, or the answer of its cell.
ghost use Rattle.judging.specs.Seen.{Sees};
ghost use Rattle.cells.specs.Spots.{SpotIn, cell_there};
ghost use Rattle.tables.specs.Row.{IsRow};
ghost use Rattle.places.specs.Looking.{Looks};

use cells::inner::rule::bad_at;
use cells::inner::spot::Spot;
use judging::inner::{Seen, judge};
use layout::inner::{record_at, state_at};
use rows::inner::row::Row;
use rules::Mode;

// The answer of the cell of a place in this row, in this mode.
pub fn judge_at(mode: Mode, row: &Row, page: &[u8], spot: Spot) -> Seen
    requires { IsRow row.now × SpotIn page.now spot }
    ensures { Sees mode.0 row.now (cell_there page.now spot) result }
{
    judge(
        mode,
        row,
        state_at(page, spot.position),
        record_at(page, spot.position),
    )
}

// The cell of a place in this row; none where refusal 12 is given for it.
pub fn look(mode: Mode, row: &Row, page: &[u8], spot: Spot) -> Option<Seen>
    requires { IsRow row.now × SpotIn page.now spot }
    ensures { Looks mode.0 row.now spot.named (cell_there page.now spot) result }
{
    if bad_at(page, spot) {
        return None;
    }
    Some(judge_at(mode, row, page, spot))
}
