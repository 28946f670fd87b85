// What the calls ask of a table, its books and a page before they work: a survey of the table and what is asked of the
// books, with the check of the page's length behind it, and before it the check of the mode that a reading call is
// given.
ghost use Rattle.std.specs.Prelude.{◌≡◌, ◌≤◌, [], ◌∷◌, length};
ghost use Rattle.answers.specs.Checks.{first_of};
ghost use Rattle.layout.specs.Layout.{cells_of, page_length_check};
ghost use Rattle.pairing.specs.Meanings.{survey_meaning, survey_tells};
ghost use Rattle.rules.specs.Modes.{no_such_mode};
ghost use Rattle.rules.specs.Reading.{look_checks};
ghost use Rattle.rules.specs.Taking.{page_checks};
ghost use Rattle.rules.specs.Tallying.{whole_checks};
ghost use Rattle.tables.specs.Table.{survey_says};

use answers::Refusal;
use layout::inner::{cells, wrong_page};
use pairing::inner::books::{survey_book, survey_place, survey_shared};
use pairing::inner::survey::Surveyed;
use rules::{MENDING, Mode};
use tables::{Book, Books};

// What was surveyed, with the check of the page's length behind it.
fn with_page(surveyed: Surveyed, books: Books, page: &[u8]) -> Result<Surveyed, Refusal>
    requires { cells_of surveyed.places books.0 ≤ 65536 }
    ensures { survey_meaning result
        ≡ first_of (page_length_check (cells_of surveyed.places books.0) (length page.now) ∷ []) (0 ∷ survey_tells surveyed) }
{
    if wrong_page(cells(surveyed.places, books.0), page.len()) {
        return Err(Refusal::BufferLength);
    }
    Ok(surveyed)
}

// The books, the table, and the page; and the row of a place, if the table has that place.
pub fn survey_page(
    table: &[u8],
    books: Books,
    page: &[u8],
    place: usize,
) -> Result<Surveyed, Refusal>
    ensures { survey_meaning result ≡ survey_says (page_checks table.now books.0 page.now) table.now place }
{
    with_page(survey_shared(table, books, place)?, books, page)
}

// Whether 16 is given for a mode.
fn no_such_mode(mode: Mode) -> bool
    ensures { result ≡ no_such_mode mode.0 }
{
    MENDING < mode.0
}

// The mode, the books, the table, a book, and the page; and the row of place 0.
pub fn survey_whole(
    mode: Mode,
    table: &[u8],
    books: Books,
    book: Book,
    page: &[u8],
) -> Result<Surveyed, Refusal>
    ensures { survey_meaning result
        ≡ survey_says (whole_checks mode.0 table.now books.0 book.0 page.now) table.now 0 }
{
    if no_such_mode(mode) {
        return Err(Refusal::NoSuchMode);
    }
    with_page(survey_book(table, books, book, 0)?, books, page)
}

// The mode, the books, the table, a book, a place in it, and the page.
pub fn survey_look(
    mode: Mode,
    table: &[u8],
    books: Books,
    book: Book,
    page: &[u8],
    place: usize,
) -> Result<Surveyed, Refusal>
    ensures { survey_meaning result
        ≡ survey_says (look_checks mode.0 table.now books.0 book.0 page.now place) table.now place }
{
    if no_such_mode(mode) {
        return Err(Refusal::NoSuchMode);
    }
    with_page(survey_place(table, books, book, place)?, books, page)
}
