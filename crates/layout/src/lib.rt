// The layouts of a page (docs/RULES.md, "The page" and "States first"): where the state and the record of a place
// stand, and how long a page is. No other crate knows. No call stands here: what the calls ask of a page is in `inner`.
#![tactic(auto)]

pub mod inner;

ghost use Rattle.std.specs.Prelude.{◌≡◌, ◌≤◌, ◌<◌};
ghost use Rattle.layout.specs.Layout.{layout_of};

// How a page is kept. Pages of both layouts have one length, so whoever lends a page says which one it is.
#[derive(Clone, Copy)]
pub enum Layout {
    // each state with its record behind it, one cell after another
    CellByCell,
    // the states of all cells, then all records
    StatesFirst,
}

// By number, for callers that have nothing but numbers: 0 is cell by cell, and any other is states first.
impl From<usize> for Layout {
    ghost from_gives = { λ number layout. layout ≡ layout_of number };

    fn from(number: usize) -> Layout {
        match number {
            0 => Layout::CellByCell,
            _ => Layout::StatesFirst,
        }
    }
}

// Which cell of a page is meant: how the page is kept, how many cells it has, at most 16 x 4,096, and the number of the
// cell, which is one of them.
#[derive(Clone, Copy)]
pub struct Position {
    pub layout: Layout,
    pub cells: usize,
    pub cell: usize,
    ghost cells_to: { cells ≤ 65536 },
    ghost below: { cell < cells },
}
