// The sender (docs/RULES.md, "Sender program"): sends the page whose coefficients are in `coefficients.bin`, with
// the table in `pairing.bin`, and writes its records to `records.bin`, all in the directory that it is run in; or
// prints the refusal, and writes no file. What is written and what is refused is decided by the calls; a missing
// file is empty, and so is one that cannot be opened, which standard error tells.
#![tactic(auto)]

mod inner;

ghost use Rattle.std.specs.Prelude.{◌≤◌};

use answers::Refusal;
use files::inner::printing::print_refused;
use files::inner::reading::{read_file, read_table};
use inner::run::send_bytes;
use inner::writing::write_records;
use pairing::check;
use std::rt::Files;

// Sends a page of so many places. A file of coefficients is read as far as it tells whether its run is too long.
fn send_page(rt: &(impl Files + Eprint), table: &[u8], places: usize) -> Result<(), Refusal>
    requires { places ≤ 4096 }
{
    // Rooms of a fixed size, here and below: the program takes no memory.
    let mut room = [0u8; 262148];
    let size = read_file(rt, "coefficients.bin", &mut room);
    let mut out = [0u8; 32768];
    let end = 8 * places;
    let records = &mut out[..end];
    send_bytes(table, &room[..size], records)?;
    write_records(rt, records);
    Ok(())
}

// Sends the page of the table that is read, if the table is good. The listing program begins so too:
// one function for both, which is given the rest as a closure, would be longer than these lines.
fn send(rt: &(impl Files + Eprint)) -> Result<(), Refusal> {
    let mut room = [0u8; 513];
    let size = read_table(rt, &mut room);
    let table = &room[..size];
    let places = check(table)?;
    send_page(rt, table, places)
}

fn main(rt: HostRuntime) {
    if let Err(refusal) = send(&rt) {
        print_refused(&rt, refusal);
    }
}
