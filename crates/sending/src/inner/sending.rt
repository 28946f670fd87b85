// A run of coefficients into the records of a book: first every coefficient is judged, and then the records are
// written.
ghost use Rattle.std.specs.Prelude.{◌≡◌, [], ◌∷◌, ◌+◌, ◌*◌, ◌<◌};
ghost use Rattle.std.proofs.Math.ListN as listed;
ghost use Rattle.answers.specs.Checks.{first_of, leaves};
ghost use Rattle.answers.specs.Refusals.{verdict_meaning};
ghost use Rattle.buffers.specs.Written.{Wrote};
ghost use Rattle.tables.specs.BookNumbers.{most_books};
ghost use Rattle.records.specs.Record.{record_length};
ghost use Rattle.coding.specs.Coded.{record_named};
ghost use Rattle.runs.specs.Sending.{run_checks, send_rest, records_of};
ghost use Rattle.sending.specs.Meanings.{send_meaning};
ghost use Rattle.sending.specs.Bounds.{Opened, Writable, Judged};

use crate::inner::run::coordinates;
use crate::inner::way::Run;
use answers::Refusal;
use coding::inner::write_record;
use coefficients::inner::coefficients::{first_at_fault, some_unusable};
use pairing::inner::survey::Surveyed;
use records::inner::Named;
use rows::inner::row::Row;
use tables::Book;

impl Run<'_> {
    // Whether every coefficient is usable, or the refusal that names the lowest place at fault, and its first
    // coordinate at fault. The places are gone through only if some coefficient is unusable.
    fn check_run(&self) -> Result<(), Refusal>
        ensures { verdict_meaning result ≡ first_of (run_checks self.now.table.now self.now.coefficients.now) (0 ∷ []) }
    {
        if !some_unusable(self.coefficients) {
            return Ok(());
        }
        let mut way = self.way();
        for place in 0..self.places {
            let vector = self.next(&mut way, place).vector;
            if let Some(coordinate) = first_at_fault(vector) {
                return Err(Refusal::UnusableCoefficientAt { place, coordinate });
            }
        }
        Ok(())
    }

    // The records of all places, in place order.
    fn write_records(&self, book: Book, out: &mut [u8])
        requires { Judged self.now.table.now self.now.coefficients.now book.0 out.old }
        ensures { out.new ≡ records_of self.now.table.now book.0 self.now.coefficients.now }
    {
        let mut way = self.way();
        for place in 0..self.places {
            let stop = self.next(&mut way, place);
            let named = Named {
                book: book.0,
                place,
                row: stop.number,
            };
            write_at(stop.row, named, stop.vector, out);
        }
    }
}

// The record of a vector in this row, with the book, the place and the row's number that it is to name, where the
// record of that place stands in the buffer.
fn write_at(row: &Row, named: Named, coefficients: &[f32], out: &mut [u8])
    requires { Writable row.now coefficients.now named out.old }
    ensures { Wrote out.old (record_length * named.place) (record_named named row.now coefficients.now)
        record_length (record_length * named.place + record_length) out.new }
{
    let from = 8 * named.place;
    let to = from + 8;
    write_record(row, named, coefficients, &mut out[from..to]);
}

// What send does with books, a table and a book that passed: the checks 4, 4 and 11, and the work.
pub fn send_run(
    table: &[u8],
    surveyed: Surveyed,
    book: Book,
    run: &[f32],
    out: &mut [u8],
) -> Result<(), Refusal>
    requires { Opened table.now surveyed.places surveyed.row × (book.0 < most_books) }
    ensures { (send_meaning result
        ≡ first_of (send_rest table.now run.now (listed.length out.old)) (0 ∷ []))
        × (out.new
        ≡ leaves (send_rest table.now run.now (listed.length out.old))
        (records_of table.now book.0 run.now) out.old) }
{
    if run.len() != coordinates(table) {
        return Err(Refusal::BufferLength);
    }
    if out.len() != 8 * surveyed.places {
        return Err(Refusal::BufferLength);
    }
    let run = Run {
        table,
        places: surveyed.places,
        first: surveyed.row,
        coefficients: run,
    };
    run.check_run()?;
    run.write_records(book, out);
    Ok(())
}
