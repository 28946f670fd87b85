// Where the rows of a good table begin, so that a place is known to be in a row without a search.
ghost use Rattle.std.specs.Prelude.{not, ◌≡◌, ◌<◌, eqb, length};
ghost use Rattle.tables.specs.Table.{places_in, Good, row_of};
ghost use Rattle.tables.specs.Way.{Starts};

use rows::inner::row::{places, rows};

// For each row the first place in it, and behind the last row the number of places.
#[tactic(auto, using(crate::proofs::Starting::starting), unfolding(tables::specs::Table::places_before))]
pub fn row_starts(table: &[u8], starts: &mut [usize])
    requires { Good table.now × (length starts.old ≡ 33) }
    ensures { Starts table.now starts.new }
{
    let mut sum = 0;
    starts[0] = 0;
    for (number, row) in rows(table).iter().enumerate() {
        sum += places(row);
        starts[number + 1] = sum;
    }
}

// Whether this is not the row of a place.
#[tactic(auto, using(tables::proofs::Starting::row_past, tables::proofs::Starting::row_behind))]
pub fn is_foreign(table: &[u8], starts: &[usize], row: usize, place: usize) -> bool
    requires { Starts table.now starts.now × (place < places_in table.now) }
    ensures { result ≡ not (eqb row (row_of table.now place)) }
{
    table.len() / 16 <= row || place < starts[row] || starts[row + 1] <= place
}
