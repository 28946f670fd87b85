// The calls that convert a page (docs/RULES.md, "States first"): one that was kept cell by cell into one that is kept
// states first, and back. Every cell is copied, and no state is judged. They are two calls, as docs/CALLS.md promises
// them, over one function.
#![tactic(auto)]

mod inner;

ghost use Rattle.std.specs.Prelude.{◌≡◌};
ghost use Rattle.layout.specs.declared.Layout.TheVariants as layouts;
ghost use Rattle.rules.specs.Layouts.{convert_says, convert_leaves};
ghost use Rattle.conversion.specs.Meanings.{conversion_meaning};

use answers::Refusal;
use inner::convert_page;
use layout::Layout;
use tables::Books;

// The call to_states_first: a page that is kept cell by cell into one that is to be kept states first.
pub fn to_states_first(
    table: &[u8],
    books: Books,
    cell_by_cell: &[u8],
    states_first: &mut [u8],
) -> Result<(), Refusal>
    ensures { (conversion_meaning result ≡ convert_says table.now books.0 cell_by_cell.now states_first.old)
        × (states_first.new ≡ convert_leaves layouts.CellByCell layouts.StatesFirst
        table.now books.0 cell_by_cell.now states_first.old) }
{
    convert_page(
        Layout::CellByCell,
        Layout::StatesFirst,
        table,
        books,
        cell_by_cell,
        states_first,
    )
}

// The call to_cell_by_cell: the way back.
pub fn to_cell_by_cell(
    table: &[u8],
    books: Books,
    states_first: &[u8],
    cell_by_cell: &mut [u8],
) -> Result<(), Refusal>
    ensures { (conversion_meaning result ≡ convert_says table.now books.0 states_first.now cell_by_cell.old)
        × (cell_by_cell.new ≡ convert_leaves layouts.StatesFirst layouts.CellByCell
        table.now books.0 states_first.now cell_by_cell.old) }
{
    convert_page(
        Layout::StatesFirst,
        Layout::CellByCell,
        table,
        books,
        states_first,
        cell_by_cell,
    )
}
