// The call send (docs/RULES.md, "Sending a page"): a run of coefficients for a whole book into the records of all its
// places. What it is made of stands in `inner`.
#![tactic(auto)]

pub mod inner;

ghost use Rattle.std.specs.Prelude.{◌≡◌};
ghost use Rattle.runs.specs.Sending.{send_says, send_leaves};
ghost use Rattle.sending.specs.Meanings.{send_meaning};

use answers::Refusal;
use inner::sending::send_run;
use pairing::inner::books::survey_book;
use tables::{Book, Books};

// The call send: the records are written once every coefficient of the book has passed.
pub fn send(
    table: &[u8],
    books: Books,
    book: Book,
    run: &[f32],
    out: &mut [u8],
) -> Result<(), Refusal>
    ensures { (send_meaning result ≡ send_says table.now books.0 book.0 run.now out.old)
        × (out.new ≡ send_leaves table.now books.0 book.0 run.now out.old) }
{
    let surveyed = survey_book(table, books, book, 0)?;
    send_run(table, surveyed, book, run, out)
}
