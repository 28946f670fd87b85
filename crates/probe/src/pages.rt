// The calls of the page, lines, the conversions and send, exported to C for the second program alone: each gives an
// item of what its call says. Their parameters stand one by one, and a call has a function for each number or value of
// it, as tests/second/probe.h declares them.
ghost use Rattle.std.specs.Prelude.{◌≡◌, get_or};
ghost use Rattle.reporting.specs.Calls.{lines_says, lines_leaves};
ghost use Rattle.layout.specs.Layout.{layout_of};
ghost use Rattle.layout.specs.declared.Layout.TheVariants as layouts;
ghost use Rattle.rules.specs.Layouts.{as_cells, as_kept, convert_says, convert_leaves};
ghost use Rattle.rules.specs.Taking.{take_says, take_leaves, collected};
ghost use Rattle.rules.specs.Reading.{read_says, read_leaves, coefficient_says, coefficient_carries};
ghost use Rattle.rules.specs.Tallying.{tally_says};
ghost use Rattle.runs.specs.Sending.{send_says, send_leaves};
ghost use Rattle.probe.specs.Coded.{positive_zero};

use crate::said::{coefficient_value, item};
use conversion::{to_cell_by_cell, to_states_first};
use layout::Layout;
use rules::Mode;
use tables::{Book, Books};

// The call take.
pub fn probe_take(
    table: &[u8],
    books: usize,
    layout: usize,
    page: &mut [u8],
    bytes: &[u8],
    which: usize,
) -> u64
    ensures { (result
        ≡ get_or (take_says table.now books (as_cells (layout_of layout) table.now books page.old) bytes.now) which 0)
        × (page.new ≡ as_kept (layout_of layout) table.now books
        (take_leaves table.now books (as_cells (layout_of layout) table.now books page.old) bytes.now)) }
{
    item(
        page::take(table, Books(books), Layout::from(layout), page, bytes),
        which,
    )
}

// The call collect.
pub fn probe_collect(
    table: &[u8],
    books: usize,
    layout: usize,
    page: &mut [u8],
    bytes: &[u8],
) -> usize
    ensures { (result
        ≡ (collected table.now books (as_cells (layout_of layout) table.now books page.old) bytes.now).refused)
        × (page.new ≡ as_kept (layout_of layout) table.now books
        (collected table.now books (as_cells (layout_of layout) table.now books page.old) bytes.now).page) }
{
    page::collect(table, Books(books), Layout::from(layout), page, bytes)
}

// The call read.
pub fn probe_read(
    mode: usize,
    table: &[u8],
    books: usize,
    book: usize,
    layout: usize,
    page: &[u8],
    place: usize,
    out: &mut [i32],
    which: usize,
) -> u64
    ensures { (result ≡ get_or (read_says mode table.now books book
        (as_cells (layout_of layout) table.now books page.now) place out.old) which 0)
        × (out.new ≡ read_leaves mode table.now books book
        (as_cells (layout_of layout) table.now books page.now) place out.old) }
{
    item(
        page::read(
            Mode(mode),
            table,
            Books(books),
            Book(book),
            Layout::from(layout),
            page,
            place,
            out,
        ),
        which,
    )
}

// The call coefficient, by what it says.
pub fn probe_coefficient(
    mode: usize,
    table: &[u8],
    books: usize,
    book: usize,
    layout: usize,
    page: &[u8],
    place: usize,
    coordinate: usize,
    which: usize,
) -> u64
    ensures { result ≡ get_or (coefficient_says mode table.now books book
        (as_cells (layout_of layout) table.now books page.now) place coordinate) which 0 }
{
    item(
        page::coefficient(
            Mode(mode),
            table,
            Books(books),
            Book(book),
            Layout::from(layout),
            page,
            place,
            coordinate,
        ),
        which,
    )
}

// The call coefficient, by the value that it carries, or positive zero.
pub fn probe_coefficient_value(
    mode: usize,
    table: &[u8],
    books: usize,
    book: usize,
    layout: usize,
    page: &[u8],
    place: usize,
    coordinate: usize,
) -> f32
    ensures { result ≡ get_or (coefficient_carries mode table.now books book
        (as_cells (layout_of layout) table.now books page.now) place coordinate) 0 positive_zero }
{
    coefficient_value(page::coefficient(
        Mode(mode),
        table,
        Books(books),
        Book(book),
        Layout::from(layout),
        page,
        place,
        coordinate,
    ))
}

// The call tally.
pub fn probe_tally(
    mode: usize,
    table: &[u8],
    books: usize,
    book: usize,
    layout: usize,
    page: &[u8],
    which: usize,
) -> u64
    ensures { result
        ≡ get_or (tally_says mode table.now books book (as_cells (layout_of layout) table.now books page.now)) which 0 }
{
    item(
        page::tally(
            Mode(mode),
            table,
            Books(books),
            Book(book),
            Layout::from(layout),
            page,
        ),
        which,
    )
}

// The call lines.
pub fn probe_lines(
    mode: usize,
    table: &[u8],
    books: usize,
    book: usize,
    layout: usize,
    page: &[u8],
    from: usize,
    out: &mut [u8],
    which: usize,
) -> u64
    ensures { (result ≡ get_or (lines_says mode table.now books book
        (as_cells (layout_of layout) table.now books page.now) from out.old) which 0)
        × (out.new ≡ lines_leaves mode table.now books book
        (as_cells (layout_of layout) table.now books page.now) from out.old) }
{
    item(
        report::lines(
            Mode(mode),
            table,
            Books(books),
            Book(book),
            Layout::from(layout),
            page,
            from,
            out,
        ),
        which,
    )
}

// The call to_states_first.
pub fn probe_to_states_first(
    table: &[u8],
    books: usize,
    cell_by_cell: &[u8],
    states_first: &mut [u8],
    which: usize,
) -> u64
    ensures { (result ≡ get_or (convert_says table.now books cell_by_cell.now states_first.old) which 0)
        × (states_first.new ≡ convert_leaves layouts.CellByCell layouts.StatesFirst
        table.now books cell_by_cell.now states_first.old) }
{
    item(
        to_states_first(table, Books(books), cell_by_cell, states_first),
        which,
    )
}

// The call to_cell_by_cell.
pub fn probe_to_cell_by_cell(
    table: &[u8],
    books: usize,
    states_first: &[u8],
    cell_by_cell: &mut [u8],
    which: usize,
) -> u64
    ensures { (result ≡ get_or (convert_says table.now books states_first.now cell_by_cell.old) which 0)
        × (cell_by_cell.new ≡ convert_leaves layouts.StatesFirst layouts.CellByCell
        table.now books states_first.now cell_by_cell.old) }
{
    item(
        to_cell_by_cell(table, Books(books), states_first, cell_by_cell),
        which,
    )
}

// The call send.
pub fn probe_send(
    table: &[u8],
    books: usize,
    book: usize,
    run: &[f32],
    out: &mut [u8],
    which: usize,
) -> u64
    ensures { (result ≡ get_or (send_says table.now books book run.now out.old) which 0)
        × (out.new ≡ send_leaves table.now books book run.now out.old) }
{
    item(
        sending::send(table, Books(books), Book(book), run, out),
        which,
    )
}
