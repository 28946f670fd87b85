// What the calls ask of a table before they work: one pass over its rows, which judges every row, adds up the
// places and finds the row of a place on the way, so that a call which is given a table and a place goes over the
// rows once.
ghost use Rattle.std.specs.Prelude.{◌≡◌, length};
ghost use Rattle.tables.specs.Table.{wrong_size, table_checks, survey_says};
ghost use Rattle.pairing.specs.Meanings.{survey_meaning};

use answers::Refusal;
use rows::inner::fault::bad_row;
use rows::inner::row::{places, rows};

// What a survey tells of a good table: the number of places, and the row of the place that was asked for, or the
// number of rows where there is no such place.
#[derive(Clone, Copy)]
pub struct Surveyed {
    pub places: usize,
    pub row: usize,
}

// A table whose size is not 1 to 32 whole rows.
fn wrong_size(table: &[u8]) -> bool
    ensures { result ≡ wrong_size (length table.now) }
{
    let n = table.len();
    n < 1 || 512 < n || n % 16 != 0
}

// The table: `sum` and `row` are the places and the row of those rows that were gone through.
pub fn survey(table: &[u8], place: usize) -> Result<Surveyed, Refusal>
    ensures { survey_meaning result ≡ survey_says (table_checks table.now) table.now place }
{
    if wrong_size(table) {
        return Err(Refusal::BadTable { row: 0 });
    }
    let mut sum = 0;
    let mut row = 0;
    for (number, bytes) in rows(table).iter().enumerate() {
        if bad_row(bytes) {
            return Err(Refusal::BadTable { row: number });
        }
        sum += places(bytes);
        if 4096 < sum {
            return Err(Refusal::BadTable { row: number });
        }
        if sum <= place {
            row += 1;
        }
    }
    Ok(Surveyed { places: sum, row })
}
