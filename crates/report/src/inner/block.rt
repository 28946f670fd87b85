// A block of lines: those of some places of a book, one after the other, from the start of the lent buffer on.
ghost use Rattle.std.specs.Prelude.{◌≡◌, [], ◌∷◌, ◌+◌, ◌-◌, ◌*◌, ◌≤◌, min};
ghost use Rattle.std.proofs.Math.ListN as listed;
ghost use Rattle.answers.specs.Checks.{first_of, leaves, each_from};
ghost use Rattle.answers.specs.Refusals.{verdict_meaning};
ghost use Rattle.buffers.specs.Written.{Wrote};
ghost use Rattle.judging.specs.Seen.{Handed};
ghost use Rattle.cells.specs.Spots.{SpotIn, cell_there};
ghost use Rattle.rules.specs.Judging.{Shows};
ghost use Rattle.rules.specs.Taking.{cell_check_at};
ghost use Rattle.tables.specs.Row.{length_of, IsRow};
ghost use Rattle.reporting.specs.Listing.{line_of, line_in, lines_from};
ghost use Rattle.reporting.specs.Calls.{line_space, starting_with, lines_rest, lines_text, lines_answer};
ghost use Rattle.report.specs.Meanings.{listed_meaning, size_listed};
ghost use Rattle.report.specs.Bounds.{page_spanned, Spans, HasRoom, Listable};

use crate::Listed;
use answers::Refusal;
use cells::inner::rule::bad_at;
use cells::inner::spot::{Spot, locate};
use judging::inner::Seen;
use layout::Layout;
use pairing::inner::walking::{walk_from, walked};
use places::inner::looking::judge_at;
use places::inner::showing::{answer_number, reason_or_distance, show};
use records::inner::Named;
use rows::inner::row::{Row, length, row_at};
use rules::Mode;
use text::inner::lines::write_place_line;

// The places of a book from `from`, which is in this row, to the one before `to`; a page is kept in this layout and has
// so many books, and a book so many places.
#[derive(Clone, Copy)]
pub struct Span {
    pub layout: Layout,
    pub places: usize,
    pub books: usize,
    pub book: usize,
    pub row: usize,
    pub from: usize,
    pub to: usize,
}

// Whether the cells of these places are good, or the refusal that names the lowest that is not.
fn check_cells(table: &[u8], page: &[u8], span: Span) -> Result<(), Refusal>
    requires { Spans table.now page.now span }
    ensures { verdict_meaning result
        ≡ first_of (each_from (cell_check_at table.now (page_spanned table.now page.now span) span.book)
        span.from (span.to - span.from)) (0 ∷ []) }
{
    let layout = span.layout;
    let mut walk = walk_from(table, span.row, span.from);
    for place in span.from..span.to {
        walk = walked(table, walk, place);
        let named = Named {
            book: span.book,
            place,
            row: walk.row,
        };
        if bad_at(page, locate(layout, span.places, span.books, named)) {
            return Err(Refusal::BadCellAt { place });
        }
    }
    Ok(())
}

// The line of a place where this was seen, with room for its point; where it ends.
fn write_seen(
    row: &Row,
    place: usize,
    seen: Seen,
    point: &mut [i32],
    at: usize,
    out: &mut [u8],
) -> usize
    requires { IsRow row.now × Shows row.now seen.judged × Handed row.now seen.judged seen.found
        × (listed.length point.old ≡ length_of row.now) × (at + line_space ≤ listed.length out.old) }
    ensures { Wrote out.old at (line_of row.now place seen.judged) line_space result out.new }
{
    show(row, seen, point);
    let judged = seen.judged;
    write_place_line(
        place,
        answer_number(judged),
        reason_or_distance(judged),
        point,
        at,
        out,
    )
}

// The line of a place in this row, by its cell and in this mode; where it ends.
fn write_line(mode: Mode, row: &Row, page: &[u8], spot: Spot, at: usize, out: &mut [u8]) -> usize
    requires { IsRow row.now × SpotIn page.now spot × (at + line_space ≤ listed.length out.old) }
    ensures { Wrote out.old at (line_in mode.0 row.now spot.named.place (cell_there page.now spot))
        line_space result out.new }
{
    let l = length(row).0;
    let seen = judge_at(mode, row, page, spot);
    // A room of a fixed size: no call takes memory.
    let mut point = [0i32; 16];
    write_seen(row, spot.named.place, seen, &mut point[..l], at, out)
}

// The lines of these places; where they end.
fn write_lines(mode: Mode, table: &[u8], page: &[u8], span: Span, out: &mut [u8]) -> usize
    requires { HasRoom table.now page.now span out.old }
    ensures { Wrote out.old 0
        (lines_from mode.0 table.now (page_spanned table.now page.now span) span.book span.from (span.to - span.from))
        (line_space * (span.to - span.from)) result out.new }
{
    let layout = span.layout;
    let mut walk = walk_from(table, span.row, span.from);
    let mut end = 0;
    for place in span.from..span.to {
        walk = walked(table, walk, place);
        let named = Named {
            book: span.book,
            place,
            row: walk.row,
        };
        let spot = locate(layout, span.places, span.books, named);
        end = write_line(mode, row_at(table, walk.row), page, spot, end, out);
    }
    end
}

// What lines does with a mode, books, a table, a book, a place and a page that passed: the checks 4 and 12, and the
// work. The places of `opened` from its first on are those that may be listed.
pub fn lines_from(
    mode: Mode,
    table: &[u8],
    page: &[u8],
    opened: Span,
    out: &mut [u8],
) -> Result<Listed, Refusal>
    requires { Listable mode.0 table.now page.now opened }
    ensures says { listed_meaning result
        ≡ first_of (lines_rest table.now (page_spanned table.now page.now opened) opened.book opened.from
        (listed.length out.old))
        (lines_answer mode.0 table.now (page_spanned table.now page.now opened) opened.book opened.from
        (listed.length out.old)) }
    ensures leaves { out.new
        ≡ leaves (lines_rest table.now (page_spanned table.now page.now opened) opened.book opened.from
        (listed.length out.old))
        (starting_with (lines_text mode.0 table.now (page_spanned table.now page.now opened) opened.book opened.from
        (listed.length out.old)) out.old)
        out.old }
    ensures fits { size_listed result ≤ listed.length out.new }
{
    if out.len() < 256 {
        return Err(Refusal::BufferLength);
    }
    let to = opened.from + usize::min(opened.to - opened.from, out.len() / 256);
    let mut span = opened;
    span.to = to;
    check_cells(table, page, span)?;
    let size = write_lines(mode, table, page, span, out);
    Ok(Listed { to, size })
}
