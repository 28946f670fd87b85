// The calls of the report (docs/RULES.md, "Listing program"): the lines of places, the last line, and the line of a
// refusal, each into a lent buffer. What they are made of stands in `inner`; the text itself, in `text`.
#![tactic(auto)]

pub mod inner;

ghost use Rattle.std.specs.Prelude.{◌≡◌, ◌≤◌, length};
ghost use Rattle.answers.specs.Refusals.{meaning, printed};
ghost use Rattle.page.specs.Meanings.{counts_meaning};
ghost use Rattle.rules.specs.Layouts.{as_cells};
ghost use Rattle.wording.specs.Text.{refused_text};
ghost use Rattle.reporting.specs.Listing.{last_line};
ghost use Rattle.reporting.specs.Calls.{lines_says, lines_leaves, line_says, line_leaves};
ghost use Rattle.report.specs.Meanings.{listed_meaning, lined_meaning, size_listed, size_lined};

use answers::Refusal;
use inner::block::{Span, lines_from};
use inner::refusal::write_refusal;
use layout::Layout;
use page::Counts;
use places::inner::opening::survey_look;
use rules::Mode;
use tables::{Book, Books};
use text::inner::lines::write_last_line;

// Lines written: the place from which to go on, and how many bytes they have.
#[derive(Clone, Copy)]
pub struct Listed {
    pub to: usize,
    pub size: usize,
}

// The call lines: those of the places of a book from `from` on in a mode, as many as there are or as the buffer has
// room for, 256 bytes each.
pub fn lines(
    mode: Mode,
    table: &[u8],
    books: Books,
    book: Book,
    layout: Layout,
    page: &[u8],
    from: usize,
    out: &mut [u8],
) -> Result<Listed, Refusal>
    ensures { (listed_meaning result ≡ lines_says mode.0 table.now books.0 book.0
        (as_cells layout table.now books.0 page.now) from out.old)
        × (out.new ≡ lines_leaves mode.0 table.now books.0 book.0
        (as_cells layout table.now books.0 page.now) from out.old)
        × (size_listed result ≤ length out.new) }
{
    let surveyed = survey_look(mode, table, books, book, page, from)?;
    let opened = Span {
        layout,
        places: surveyed.places,
        books: books.0,
        book: book.0,
        row: surveyed.row,
        from,
        to: surveyed.places,
    };
    lines_from(mode, table, page, opened, out)
}

// The call last_line: the five counts, and the number of refused takes; how many bytes the line has.
pub fn last_line(counts: Counts, refused: u64, out: &mut [u8]) -> Result<usize, Refusal>
    ensures { (lined_meaning result ≡ line_says (last_line (counts_meaning counts) refused) out.old)
        × (out.new ≡ line_leaves (last_line (counts_meaning counts) refused) out.old)
        × (size_lined result ≤ length out.new) }
{
    if out.len() < 256 {
        return Err(Refusal::BufferLength);
    }
    let numbers = [
        counts.sound as u64,
        counts.mended as u64,
        counts.missing as u64,
        counts.contested as u64,
        counts.unreadable as u64,
        refused,
    ];
    Ok(write_last_line(&numbers, 0, out))
}

// The call refused_line: what is printed for a refusal, its number and the values of one that names two; how many
// bytes the line has.
pub fn refused_line(refusal: Refusal, out: &mut [u8]) -> Result<usize, Refusal>
    ensures { (lined_meaning result ≡ line_says (refused_text (printed (meaning refusal))) out.old)
        × (out.new ≡ line_leaves (refused_text (printed (meaning refusal))) out.old)
        × (size_lined result ≤ length out.new) }
{
    if out.len() < 256 {
        return Err(Refusal::BufferLength);
    }
    Ok(write_refusal(refusal, out))
}
