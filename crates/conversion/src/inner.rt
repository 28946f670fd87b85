// What both conversions do.
ghost use Rattle.std.specs.Prelude.{◌≡◌};
ghost use Rattle.rules.specs.Layouts.{convert_says, convert_leaves};
ghost use Rattle.conversion.specs.Meanings.{conversion_meaning};

use answers::Refusal;
use layout::Layout;
use layout::inner::{cells, convert, wrong_page};
use places::inner::opening::survey_page;
use tables::Books;

// A page into another page, from one layout into another.
pub fn convert_page(
    from: Layout,
    to: Layout,
    table: &[u8],
    books: Books,
    page: &[u8],
    other: &mut [u8],
) -> Result<(), Refusal>
    ensures { (conversion_meaning result ≡ convert_says table.now books.0 page.now other.old)
        × (other.new ≡ convert_leaves from to table.now books.0 page.now other.old) }
{
    let surveyed = survey_page(table, books, page, 0)?;
    let n = cells(surveyed.places, books.0);
    if wrong_page(n, other.len()) {
        return Err(Refusal::BufferLength);
    }
    convert(from, to, n, page, other);
    Ok(())
}
