// The tally over a book of a page, in one pass.
ghost use Rattle.std.specs.Prelude.{◌∷◌, ◌≡◌, ◌<◌};
ghost use Rattle.answers.specs.Checks.{first_of};
ghost use Rattle.rules.specs.Tallying.{tally_rest, tally_of};
ghost use Rattle.tables.specs.Table.{row_of};
ghost use Rattle.page.specs.Bounds.{cells_in, IsOpen};
ghost use Rattle.page.specs.Meanings.{tally_meaning};

use crate::Counts;
use crate::inner::opened::Opened;
use answers::Refusal;
use cells::inner::spot::locate;
use pairing::inner::walking::{walk_from, walked};
use places::inner::looking::look;
use places::inner::showing::answer_number;
use records::inner::Named;
use rows::inner::row::row_at;
use rules::Mode;
use tables::Book;

impl Opened<'_> {
    // What tally does with what was opened and a book of it, from the row of place 0 on: check 12 at every place of the
    // book, and the counts on the way.
    pub fn tally_page(
        &self,
        mode: Mode,
        book: Book,
        row: usize,
        page: &[u8],
    ) -> Result<Counts, Refusal>
        requires { IsOpen self.now page.now × (book.0 < self.now.books.0) × (row ≡ row_of self.now.table.now 0) }
        ensures { tally_meaning result
            ≡ first_of (tally_rest self.now.table.now (cells_in self.now page.now) book.0)
            (0 ∷ tally_of mode.0 self.now.table.now (cells_in self.now page.now) book.0) }
    {
        let mut counts = [0usize; 5];
        let mut walk = walk_from(self.table, row, 0);
        for place in 0..self.places {
            walk = walked(self.table, walk, place);
            let row = walk.row;
            let named = Named {
                book: book.0,
                place,
                row,
            };
            let spot = locate(self.layout, self.places, self.books.0, named);
            let seen = look(mode, row_at(self.table, row), page, spot).ok_or(Refusal::BadCellAt {
                place,
            })?;
            counts[answer_number(seen.judged)] += 1;
        }
        Ok(Counts {
            sound: counts[0],
            mended: counts[1],
            missing: counts[2],
            contested: counts[3],
            unreadable: counts[4],
        })
    }
}
