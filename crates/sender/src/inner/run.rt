// The run of a file of coefficients, each f32 as its four bytes, high byte first; and the page that it is sent for.
ghost use Rattle.std.specs.Prelude.{◌≡◌, ◌*◌, ◌≤◌, length, take};
ghost use Rattle.octets.specs.Octets.{from_high};
ghost use Rattle.tables.specs.BookNumbers.{one_book, only_book};
ghost use Rattle.runs.specs.File.{run_of, run_room};
ghost use Rattle.runs.specs.Sending.{send_says, send_leaves};
ghost use Rattle.sending.specs.Meanings.{send_meaning};

use answers::Refusal;
use floats::inner::from_pattern;
use sending::send;
use tables::{Book, Books, ONE_BOOK, ONLY_BOOK};

// The number that four bytes stand for.
fn pattern(four: [u8; 4]) -> u32
    ensures { result ≡ from_high four }
{
    u32::from_be_bytes(four)
}

// The coefficients of all the bytes, or none where they are no whole number of fours; how many they are.
pub fn run_of(bytes: &[u8], out: &mut [f32]) -> usize
    requires { length bytes.now ≤ 4 * length out.old }
    ensures { (result ≤ length out.new) × (take result out.new ≡ run_of bytes.now) }
{
    let (fours, rest) = bytes.as_chunks::<4>();
    if !rest.is_empty() {
        return 0;
    }
    // Stored by number: the proof of a zip with `out` stayed open at what it has written.
    for (i, four) in fours.iter().enumerate() {
        out[i] = from_pattern(pattern(*four));
    }
    fours.len()
}

// The call send for the run of these bytes, in a page of one book.
pub fn send_bytes(table: &[u8], bytes: &[u8], records: &mut [u8]) -> Result<(), Refusal>
    requires { length bytes.now ≤ run_room }
    ensures { (send_meaning result ≡ send_says table.now one_book only_book (run_of bytes.now) records.old)
        × (records.new ≡ send_leaves table.now one_book only_book (run_of bytes.now) records.old) }
{
    // A room of a fixed size: the program takes no memory.
    let mut run = [0.0f32; 65537];
    let count = run_of(bytes, &mut run);
    send(
        table,
        Books(ONE_BOOK),
        Book(ONLY_BOOK),
        &run[..count],
        records,
    )
}
