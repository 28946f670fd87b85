// The listing program (docs/RULES.md, "Listing program"): lists the page that `records.bin` makes with the table in
// `pairing.bin`, both in the directory that it is run in. The page has one book. It takes the records a block at a
// time and writes the lines a block at a time, so its memory does not grow with the files. What is taken and what is
// written is decided by the calls; a missing file is empty, and so is one that cannot be opened, which standard error
// tells.
#![tactic(auto)]

mod inner;

ghost use Rattle.std.specs.Prelude.{◌≤◌};

use files::inner::printing::{End, print_end};
use files::inner::reading::read_table;
use inner::input::take_records;
use inner::output::print_page;
use layout::inner::{BOOK_ROOM, page_length};
use pairing::check;
use std::rt::Files;

// Lists a page of one book, which has so many places.
fn list_page(rt: &(impl Files + Print + Eprint), table: &[u8], places: usize) -> Result<(), End>
    requires { places ≤ 4096 }
{
    // A room of a fixed size, here and below: the program takes no memory.
    let mut room = [0u8; BOOK_ROOM];
    let size = page_length(places);
    let page = &mut room[..size];
    let refused = take_records(rt, table, page);
    print_page(rt, table, page, places, refused)
}

// Lists the page of the table that is read, if the table is good. The sender begins so too:
// one function for both, which is given the rest as a closure, would be longer than these lines.
fn list(rt: &(impl Files + Print + Eprint)) -> Result<(), End> {
    let mut room = [0u8; 513];
    let size = read_table(rt, &mut room);
    let table = &room[..size];
    let places = check(table)?;
    list_page(rt, table, places)
}

fn main(rt: HostRuntime) {
    if let Err(end) = list(&rt) {
        print_end(&rt, end);
    }
}
