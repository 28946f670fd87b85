// The calls of the page (docs/RULES.md, "The page" and "Books"): take a record, collect a run of records, read a place,
// one coefficient, and the tally. All are given the number of books and the layout of the page; the last three are
// given a mode and a book, too. The arguments stand one by one, as docs/CALLS.md promises them to whoever calls. What
// the calls are made of stands in `inner`; what they are to say, in `rules`.
#![tactic(auto)]

pub mod inner;

ghost use Rattle.std.specs.Prelude.{◌≡◌};
ghost use Rattle.rules.specs.Layouts.{as_cells, as_kept};
ghost use Rattle.rules.specs.Taking.{take_says, take_leaves, collected};
ghost use Rattle.rules.specs.Reading.{read_says, read_leaves, coefficient_says, coefficient_carries};
ghost use Rattle.rules.specs.Tallying.{tally_says};
ghost use Rattle.page.specs.Meanings.{take_meaning, read_meaning, coefficient_meaning, coefficient_values, tally_meaning};

use answers::Refusal;
use cells::inner::spot::locate;
use inner::opened::Opened;
use inner::reading::{coefficient_at, read_at};
use inner::taking::{names_other_row, parts, place_named};
use layout::Layout;
use places::inner::opening::{survey_look, survey_page, survey_whole};
use records::inner::Named;
use rows::inner::row::row_at;
use rules::{Mode, Reason};
use tables::{Book, Books};

// What a place shows. A sound or mended one carries a value: that of the coordinate that coefficient is asked for, and
// nothing for read, which writes the point. A mended one has its distance, and an unreadable one its reason, past the
// end with its distance.
#[derive(Clone, Copy)]
pub enum Answer<T> {
    Sound(T),
    Mended { value: T, distance: u64 },
    Missing,
    Contested,
    Unreadable(Reason),
}

// How many places show each answer.
#[derive(Clone, Copy)]
pub struct Counts {
    pub sound: usize,
    pub mended: usize,
    pub missing: usize,
    pub contested: usize,
    pub unreadable: usize,
}

// The call take: a record into the page. It changes the cell of the record's place in its book and no other byte.
pub fn take(
    table: &[u8],
    books: Books,
    layout: Layout,
    page: &mut [u8],
    bytes: &[u8],
) -> Result<(), Refusal>
    ensures { (take_meaning result
        ≡ take_says table.now books.0 (as_cells layout table.now books.0 page.old) bytes.now)
        × (page.new ≡ as_kept layout table.now books.0
        (take_leaves table.now books.0 (as_cells layout table.now books.0 page.old) bytes.now)) }
{
    let surveyed = survey_page(table, books, page, place_named(bytes))?;
    let foreign = names_other_row(bytes, surveyed.row);
    let opened = Opened {
        table,
        places: surveyed.places,
        books,
        layout,
    };
    opened.take_record(foreign, page, bytes)
}

// The call collect: a run of bytes, eight by eight and a shorter last part too, each taken in turn; how many takes
// were refused. With a number of books, a table or a page that take would refuse, all of them are.
pub fn collect(table: &[u8], books: Books, layout: Layout, page: &mut [u8], bytes: &[u8]) -> usize
    ensures { (result
        ≡ (collected table.now books.0 (as_cells layout table.now books.0 page.old) bytes.now).refused)
        × (page.new ≡ as_kept layout table.now books.0
        (collected table.now books.0 (as_cells layout table.now books.0 page.old) bytes.now).page) }
{
    match survey_page(table, books, page, 0) {
        Ok(surveyed) => {
            let opened = Opened {
                table,
                places: surveyed.places,
                books,
                layout,
            };
            opened.collect_records(page, bytes)
        }
        Err(_) => parts(bytes.len()),
    }
}

// The call read: the point of a place of a book, or zeros, into the lent buffer once every check has passed.
pub fn read(
    mode: Mode,
    table: &[u8],
    books: Books,
    book: Book,
    layout: Layout,
    page: &[u8],
    place: usize,
    out: &mut [i32],
) -> Result<Answer<()>, Refusal>
    ensures { (read_meaning result ≡ read_says mode.0 table.now books.0 book.0
        (as_cells layout table.now books.0 page.now) place out.old)
        × (out.new ≡ read_leaves mode.0 table.now books.0 book.0
        (as_cells layout table.now books.0 page.now) place out.old) }
{
    let surveyed = survey_look(mode, table, books, book, page, place)?;
    let row = surveyed.row;
    let named = Named {
        book: book.0,
        place,
        row,
    };
    let spot = locate(layout, surveyed.places, books.0, named);
    read_at(mode, row_at(table, row), page, spot, out)
}

// The call coefficient: one coordinate of a place of a book, as its value.
pub fn coefficient(
    mode: Mode,
    table: &[u8],
    books: Books,
    book: Book,
    layout: Layout,
    page: &[u8],
    place: usize,
    coordinate: usize,
) -> Result<Answer<f32>, Refusal>
    ensures { (coefficient_meaning result ≡ coefficient_says mode.0 table.now books.0 book.0
        (as_cells layout table.now books.0 page.now) place coordinate)
        × (coefficient_values result ≡ coefficient_carries mode.0 table.now books.0 book.0
        (as_cells layout table.now books.0 page.now) place coordinate) }
{
    let surveyed = survey_look(mode, table, books, book, page, place)?;
    let row = surveyed.row;
    let named = Named {
        book: book.0,
        place,
        row,
    };
    let spot = locate(layout, surveyed.places, books.0, named);
    coefficient_at(mode, row_at(table, row), page, spot, coordinate)
}

// The call tally: the five counts of a book.
pub fn tally(
    mode: Mode,
    table: &[u8],
    books: Books,
    book: Book,
    layout: Layout,
    page: &[u8],
) -> Result<Counts, Refusal>
    ensures { tally_meaning result
        ≡ tally_says mode.0 table.now books.0 book.0 (as_cells layout table.now books.0 page.now) }
{
    let surveyed = survey_whole(mode, table, books, book, page)?;
    let opened = Opened {
        table,
        places: surveyed.places,
        books,
        layout,
    };
    opened.tally_page(mode, book, surveyed.row, page)
}
