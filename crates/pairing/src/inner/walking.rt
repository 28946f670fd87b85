// The way through the places of a good table, row by row.
ghost use Rattle.std.specs.Prelude.{◌≡◌, ◌<◌, ◌≤◌};
ghost use Rattle.tables.specs.Table.{rows_of, places_before, places_in, Good};
ghost use Rattle.tables.specs.Way.{Placed, Walked, AtRow};

use rows::inner::row::{places, row_at, rows};

// A row on the way through the places, and the place where it ends.
#[derive(Clone, Copy)]
pub struct Walk {
    pub row: usize,
    pub end: usize,
}

// The row of a place, from that of the place before it: the next row, where this one has ended.
pub fn walked(table: &[u8], walk: Walk, place: usize) -> Walk
    requires { Walked table.now walk.row walk.end place × (place < places_in table.now) }
    ensures { AtRow table.now result.row result.end place }
{
    if place < walk.end {
        return walk;
    }
    let row = walk.row + 1;
    Walk {
        row,
        end: walk.end + places(row_at(table, row)),
    }
}

// How many places stand in the rows before this one.
#[tactic(auto, using(crate::proofs::Starting::starting), unfolding(tables::specs::Table::places_before))]
fn places_before(table: &[u8], row: usize) -> usize
    requires { Good table.now × (row ≤ rows_of table.now) }
    ensures { (result ≡ places_before table.now row) × (result ≤ 4096) }
{
    let mut sum = 0;
    for before in &rows(table)[..row] {
        sum += places(before);
    }
    sum
}

// The way from a place in this row on.
pub fn walk_from(table: &[u8], row: usize, place: usize) -> Walk
    requires { Placed table.now place row }
    ensures { AtRow table.now result.row result.end place }
{
    Walk {
        row,
        end: places_before(table, row + 1),
    }
}
