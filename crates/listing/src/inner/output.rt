// The listing, printed a block at a time in mending mode. Where one cannot be written, nothing more is printed.
use files::inner::printing::End;
use layout::Layout;
use page::tally;
use report::{last_line, lines};
use rules::{MENDING, Mode};
use tables::{Book, Books, ONE_BOOK, ONLY_BOOK};

// Prints the page: the lines of its places, and the last line.
pub fn print_page(
    rt: &impl Print,
    table: &[u8],
    page: &[u8],
    places: usize,
    refused: u64,
) -> Result<(), End> {
    print_lines(rt, table, page, places)?;
    print_tally(rt, table, page, refused)
}

// Prints the lines of the places.
fn print_lines(rt: &impl Print, table: &[u8], page: &[u8], places: usize) -> Result<(), End> {
    // A room of a fixed size, here and below: the program takes no memory.
    let mut out = [0u8; 65536];
    let mut from = 0;
    // Each call tells from which place to go on, so the places are not counted one by one.
    while from < places {
        let listed = lines(
            Mode(MENDING),
            table,
            Books(ONE_BOOK),
            Book(ONLY_BOOK),
            Layout::CellByCell,
            page,
            from,
            &mut out,
        )?;
        rt.write_all(&out[..listed.size])?;
        from = listed.to;
    }
    Ok(())
}

// Prints the last line.
fn print_tally(rt: &impl Print, table: &[u8], page: &[u8], refused: u64) -> Result<(), End> {
    let counts = tally(
        Mode(MENDING),
        table,
        Books(ONE_BOOK),
        Book(ONLY_BOOK),
        Layout::CellByCell,
        page,
    )?;
    let mut out = [0u8; 256];
    let size = last_line(counts, refused, &mut out)?;
    rt.write_all(&out[..size])?;
    Ok(())
}
