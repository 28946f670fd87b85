// The call quantize (docs/RULES.md, "Quantizing into a record"): one vector of coefficients into the record of a
// place in a book. What it works with stands in `coefficients` and `coding`.
#![tactic(auto)]

ghost use Rattle.std.specs.Prelude.{◌≡◌, [], ◌∷◌};
ghost use Rattle.std.proofs.Math.ListN as listed;
ghost use Rattle.answers.specs.Checks.{first_of, leaves};
ghost use Rattle.tables.specs.Row.{IsRow};
ghost use Rattle.records.specs.Naming.{InField};
ghost use Rattle.coding.specs.Coded.{record_named};
ghost use Rattle.quantizer.specs.Calls.{quantize_rest, quantize_meaning, quantize_says, quantize_leaves};

use answers::Refusal;
use coding::inner::write_record;
use coefficients::inner::coefficients::check_coefficients;
use pairing::inner::books::survey_place;
use records::inner::{Named, wrong_record};
use rows::inner::row::{Row, length, row_at};
use tables::{Book, Books};

// The call quantize: the record is written once every check has passed.
pub fn quantize(
    table: &[u8],
    books: Books,
    book: Book,
    place: usize,
    coefficients: &[f32],
    out: &mut [u8],
) -> Result<(), Refusal>
    ensures { (quantize_meaning result ≡ quantize_says table.now books.0 book.0 place coefficients.now out.old)
        × (out.new ≡ quantize_leaves table.now books.0 book.0 place coefficients.now out.old) }
{
    let row = survey_place(table, books, book, place)?.row;
    let named = Named {
        book: book.0,
        place,
        row,
    };
    quantize_at(row_at(table, row), named, coefficients, out)
}

// What quantize does in this row, with the book, the place and the row's number that go into the record: the checks 4,
// 4 and 11, and the work.
fn quantize_at(row: &Row, named: Named, coefficients: &[f32], out: &mut [u8]) -> Result<(), Refusal>
    requires { IsRow row.now × InField named }
    ensures { (quantize_meaning result
        ≡ first_of (quantize_rest row.now coefficients.now (listed.length out.old)) (0 ∷ []))
        × (out.new
        ≡ leaves (quantize_rest row.now coefficients.now (listed.length out.old))
        (record_named named row.now coefficients.now) out.old) }
{
    if coefficients.len() != length(row).0 {
        return Err(Refusal::BufferLength);
    }
    if wrong_record(out.len()) {
        return Err(Refusal::BufferLength);
    }
    check_coefficients(coefficients)?;
    write_record(row, named, coefficients, out);
    Ok(())
}
