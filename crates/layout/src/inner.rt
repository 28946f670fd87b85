// The cells of a page and its length, and a cell's state and record in it, read and changed, in each layout. What is
// told of a page is told of it cell by cell.
ghost use Rattle.std.specs.Prelude.{◌≡◌, ◌≤◌, ◌<◌, length};
ghost use Rattle.records.specs.Record.{record_length};
ghost use Rattle.layout.specs.Converting.{converted};
ghost use Rattle.layout.specs.Layout.{cells_of, cell_of, page_length, page_length_check, state_offset, record_offset, set_cell};
ghost use Rattle.layout.specs.Positions.{InPage, page_told, cell_told};

use crate::{Layout, Position};

// Room for the longest page of one book, which has 4,096 places.
pub const BOOK_ROOM: usize = 36864;

// How many cells a page has, whose books have so many places.
pub fn cells(places: usize, books: usize) -> usize
    requires { cells_of places books ≤ 65536 }
    ensures { result ≡ cells_of places books }
{
    books * places
}

// Which cell is that of a place of a book.
pub fn cell(places: usize, book: usize, place: usize) -> usize
    requires { cell_of places book place < 65536 }
    ensures { result ≡ cell_of places book place }
{
    book * places + place
}

// The bytes of a page of so many cells.
pub fn page_length(cells: usize) -> usize
    requires { cells ≤ 65536 }
    ensures { result ≡ page_length cells }
{
    9 * cells
}

// Whether a page of so many bytes is not that of so many cells.
pub fn wrong_page(cells: usize, bytes: usize) -> bool
    requires { cells ≤ 65536 }
    ensures { result ≡ (page_length_check cells bytes).fails }
{
    bytes != page_length(cells)
}

// Where the state of a cell stands.
fn state_offset(at: Position) -> usize
    ensures { result ≡ state_offset at.layout at.cells at.cell }
{
    match at.layout {
        Layout::CellByCell => 9 * at.cell,
        Layout::StatesFirst => at.cell,
    }
}

// Where the record of a cell begins.
fn record_offset(at: Position) -> usize
    ensures { result ≡ record_offset at.layout at.cells at.cell }
{
    match at.layout {
        Layout::CellByCell => 9 * at.cell + 1,
        Layout::StatesFirst => at.cells + 8 * at.cell,
    }
}

// The state of a cell.
#[tactic(auto, using(crate::proofs::Positions::state_stands))]
pub fn state_at(page: &[u8], at: Position) -> u8
    requires { InPage page.now at }
    ensures { result ≡ (cell_told page.now at).state }
{
    page[state_offset(at)]
}

// The record of a cell, a part of the page.
#[tactic(auto, using(crate::proofs::Positions::record_stands, crate::proofs::Positions::record_size))]
pub fn record_at(page: &[u8], at: Position) -> &[u8]
    requires { InPage page.now at }
    ensures { (result.now ≡ (cell_told page.now at).bytes) × (length result.now ≡ record_length) }
{
    let from = record_offset(at);
    &page[from..from + 8]
}

// A state and a record into the page.
#[tactic(auto, using(crate::proofs::Positions::put_told))]
pub fn set_cell(page: &mut [u8], at: Position, state: u8, bytes: &[u8])
    requires { InPage page.old at × (length bytes.now ≡ record_length) }
    ensures { page_told page.new at ≡ set_cell (page_told page.old at) at.cell (record { state = state; bytes = bytes.now }) }
{
    page[state_offset(at)] = state;
    let from = record_offset(at);
    page[from..from + 8].copy_from_slice(bytes);
}

// Every cell of a page into another page, from where one layout has it to where the other has it.
#[tactic(auto, using(crate::proofs::Converting::same_next, crate::proofs::Converting::same_all))]
pub fn convert(from: Layout, to: Layout, cells: usize, page: &[u8], other: &mut [u8])
    requires { (length page.now ≡ page_length cells) × (length other.old ≡ page_length cells) × (cells ≤ 65536) }
    ensures { other.new ≡ converted from to cells page.now }
{
    for cell in 0..cells {
        let here = Position {
            layout: from,
            cells,
            cell,
        };
        let there = Position {
            layout: to,
            cells,
            cell,
        };
        set_cell(other, there, state_at(page, here), record_at(page, here));
    }
}
