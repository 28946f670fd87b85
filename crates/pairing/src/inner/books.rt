// What the calls ask of the books that share a table: a survey of the table, with the check of the number of books
// before it, and those of a book and of a place behind it.
ghost use Rattle.std.specs.Prelude.{◌≡◌};
ghost use Rattle.tables.specs.BookNumbers.{books_outside, sharing_checks, book_checks, place_checks};
ghost use Rattle.tables.specs.Table.{survey_says};
ghost use Rattle.pairing.specs.Meanings.{survey_meaning};

use crate::inner::survey::{Surveyed, survey};
use answers::Refusal;
use tables::{Book, Books};

// Whether 17 is given for a number of books.
fn books_outside(books: Books) -> bool
    ensures { result ≡ books_outside books.0 }
{
    books.0 < 1 || 16 < books.0
}

// The number of books, and the table; and the row of a place, if the table has that place.
pub fn survey_shared(table: &[u8], books: Books, place: usize) -> Result<Surveyed, Refusal>
    ensures { survey_meaning result ≡ survey_says (sharing_checks table.now books.0) table.now place }
{
    if books_outside(books) {
        return Err(Refusal::BooksOutside);
    }
    survey(table, place)
}

// The number of books, the table, and a book; and the row of a place, if the table has that place.
pub fn survey_book(
    table: &[u8],
    books: Books,
    book: Book,
    place: usize,
) -> Result<Surveyed, Refusal>
    ensures { survey_meaning result ≡ survey_says (book_checks table.now books.0 book.0) table.now place }
{
    let surveyed = survey_shared(table, books, place)?;
    if books.0 <= book.0 {
        return Err(Refusal::NoSuchPlace);
    }
    Ok(surveyed)
}

// The number of books, the table, a book, and a place in it.
pub fn survey_place(
    table: &[u8],
    books: Books,
    book: Book,
    place: usize,
) -> Result<Surveyed, Refusal>
    ensures { survey_meaning result ≡ survey_says (place_checks table.now books.0 book.0 place) table.now place }
{
    let surveyed = survey_book(table, books, book, place)?;
    if surveyed.places <= place {
        return Err(Refusal::NoSuchPlace);
    }
    Ok(surveyed)
}
