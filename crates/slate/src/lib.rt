// The calls for the layout program, which is written in C: include/aldrynja.h declares them. Count, take and the two
// conversions are the Rattle calls and nothing more, by numbers and byte buffers; take's page is kept states first. The
// version tells which header the archive goes with.
#![tactic(auto)]

ghost use Rattle.std.specs.Prelude.{◌≡◌};
ghost use Rattle.layout.specs.declared.Layout.TheVariants as layouts;
ghost use Rattle.rules.specs.Layouts.{convert_leaves};
ghost use Rattle.slate.specs.Given.{version, count_gives, take_gives, take_keeps, convert_gives};

use answers::number_said;
use conversion::{to_cell_by_cell, to_states_first};
use counts::{Length, Radius};
use layout::Layout;
use page::take;
use shell::count;
use tables::Books;

// The version of the calls and of what they are lent.
pub fn aldrynja_version() -> u32
    ensures { result ≡ version }
{
    6
}

// The call count: N, or 0 for a refusal.
pub fn aldrynja_count(length: u64, radius: u64) -> u64
    ensures { result ≡ count_gives length radius }
{
    count(Length(length as usize), Radius(radius as usize)).unwrap_or(0)
}

// The call take on a page that is kept states first: 0, or the number of the refusal.
pub fn aldrynja_take(table: &[u8], books: u64, states_first: &mut [u8], bytes: &[u8]) -> u32
    ensures { (result ≡ take_gives table.now books states_first.old bytes.now)
        × (states_first.new ≡ take_keeps table.now books states_first.old bytes.now) }
{
    number_said(take(
        table,
        Books(books as usize),
        Layout::StatesFirst,
        states_first,
        bytes,
    ))
}

// The call to_states_first, for a page that was kept cell by cell: 0, or the number of the refusal.
pub fn aldrynja_to_states_first(
    table: &[u8],
    books: u64,
    cell_by_cell: &[u8],
    states_first: &mut [u8],
) -> u32
    ensures { (result ≡ convert_gives table.now books cell_by_cell.now states_first.old)
        × (states_first.new ≡ convert_leaves layouts.CellByCell layouts.StatesFirst
        table.now books cell_by_cell.now states_first.old) }
{
    number_said(to_states_first(table, Books(books as usize), cell_by_cell, states_first))
}

// The call to_cell_by_cell, the way back: 0, or the number of the refusal.
pub fn aldrynja_to_cell_by_cell(
    table: &[u8],
    books: u64,
    states_first: &[u8],
    cell_by_cell: &mut [u8],
) -> u32
    ensures { (result ≡ convert_gives table.now books states_first.now cell_by_cell.old)
        × (cell_by_cell.new ≡ convert_leaves layouts.StatesFirst layouts.CellByCell
        table.now books states_first.now cell_by_cell.old) }
{
    number_said(to_cell_by_cell(table, Books(books as usize), states_first, cell_by_cell))
}
