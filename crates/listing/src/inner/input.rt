// The records, taken block by block, 65,536 bytes each but the last, a whole number of records.
ghost use Rattle.listing.specs.Took.{Took};

use files::inner::reading::{fill, open};
use layout::Layout;
use page::collect;
use std::io::Read;
use std::rt::Files;
use tables::{Books, ONE_BOOK};

// A loop has to have an end, and nothing says that a file has one. 2^48 blocks of 2^16 bytes are 2^64 bytes, more
// than any file has.
const MOST_TURNS: u64 = 281474976710656;

const RECORDS: &str = "records.bin";

// Takes the records into the page, and answers how many takes were refused.
pub fn take_records(rt: &(impl Files + Eprint), table: &[u8], page: &mut [u8]) -> u64
    ensures { Took table.now page.old page.new result }
{
    match open(rt, RECORDS) {
        Some(mut file) => take_file(rt, &mut file, table, page),
        None => 0,
    }
}

// Takes what the file holds from here on.
fn take_file<F: Read>(rt: &impl Eprint, file: &mut F, table: &[u8], page: &mut [u8]) -> u64
    ensures { Took table.now page.old page.new result }
{
    // A room of a fixed size: the program takes no memory, however large the file is.
    let mut block = [0u8; 65536];
    let mut refused: u64 = 0;
    for _turn in 0..=MOST_TURNS {
        let n = fill(rt, file, RECORDS, &mut block);
        refused += collect(
            table,
            Books(ONE_BOOK),
            Layout::CellByCell,
            page,
            &block[..n],
        ) as u64;
        if n < block.len() {
            return refused;
        }
    }
    refused
}
