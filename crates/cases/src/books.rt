// How many books there are, which of them is meant, and how a page is kept. A line `Books N B` tells the first two, for
// quantize, send and the calls of the page in the lines that follow, and a line `Layout N` the third, for the calls of
// the page: 0 is cell by cell, and 1 states first.
ghost use Rattle.std.specs.Prelude.{◌≡◌, slice_index};
ghost use Rattle.layout.specs.Layout.{layout_of};
ghost use Rattle.layout.specs.declared.Layout.TheVariants as layouts;
ghost use Rattle.tables.specs.BookNumbers.{one_book, only_book};

use layout::Layout;
use script::input::number;
use tables::{Book, Books, ONE_BOOK, ONLY_BOOK};

#[derive(Clone, Copy)]
pub struct Shelf {
    pub books: Books,
    pub book: Book,
    pub layout: Layout,
}

// One book, cell by cell, as long as no line says otherwise.
pub fn one() -> Shelf
    ensures { (result.books.0 ≡ one_book) × (result.book.0 ≡ only_book) × (result.layout ≡ layouts.CellByCell) }
{
    Shelf {
        books: Books(ONE_BOOK),
        book: Book(ONLY_BOOK),
        layout: Layout::CellByCell,
    }
}

// Books N B: N books, and book B is meant.
pub fn told(shelf: Shelf, numbers: &[u64]) -> Shelf
    ensures { (result.books.0 ≡ slice_index numbers.now 0) × (result.book.0 ≡ slice_index numbers.now 1) × (result.layout ≡ shelf.layout) }
{
    Shelf {
        books: Books(number(numbers, 0) as usize),
        book: Book(number(numbers, 1) as usize),
        ..shelf
    }
}

// Layout N: 0 is cell by cell, and any other number states first.
pub fn laid(shelf: Shelf, numbers: &[u64]) -> Shelf
    ensures { (result.books ≡ shelf.books) × (result.book ≡ shelf.book) × (result.layout ≡ layout_of (slice_index numbers.now 0)) }
{
    Shelf {
        layout: Layout::from(number(numbers, 0) as usize),
        ..shelf
    }
}
