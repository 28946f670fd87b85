// The cell of a place: which cell of a page is meant, and what its record is to name.
ghost use Rattle.cells.specs.Spots.{Locatable, IsSpot};

use layout::inner::{cell, cells};
use layout::{Layout, Position};
use records::inner::Named;

// Which cell of a page is meant, and the book, the place and the row that a record in it is to name.
#[derive(Clone, Copy)]
pub struct Spot {
    pub position: Position,
    pub named: Named,
}

// The cell of this place of this book in a page of so many books, which have so many places, kept in this layout.
pub fn locate(layout: Layout, places: usize, books: usize, named: Named) -> Spot
    requires { Locatable places books named }
    ensures { IsSpot layout places books named result }
{
    let position = Position {
        layout,
        cells: cells(places, books),
        cell: cell(places, named.book, named.place),
    };
    Spot { position, named }
}
