// A room filled from a reader, and one read of it.
ghost use Rattle.std.specs.Io.KnownBytes.{Consumes};
ghost use Rattle.std.specs.Prelude.{◌≡◌, ◌+◌, ◌≤◌, length, take, drop};

use std::io::{Error, Read};

// Fills the room with what comes, until it is full, the input ends or a read fails; how many bytes these are. A read
// that fails is told by `failed`.
pub fn fill<R: Read, F: Fn(Error)>(input: &mut R, room: &mut [u8], failed: F) -> usize
    requires { F.IsAlwaysCallable failed }
    ensures fits { result ≤ length room.new }
    ensures part { result ≡ length (take result room.new) }
    ensures came { Consumes (R.remaining input.old) (R.remaining input.new) (take result room.new) }
{
    let mut filled = 0;
    // Each turn goes as far as a read says: no range or iterator counts that.
    while filled < room.len() {
        let more = read_more(input, room, filled, &failed);
        if more == 0 {
            break;
        }
        filled += more;
    }
    filled
}

// Reads once into the room, from `filled` on, and answers how many bytes came: none at the end of the input, nor where
// the read fails.
fn read_more<R: Read, F: Fn(Error)>(
    input: &mut R,
    room: &mut [u8],
    filled: usize,
    failed: &F,
) -> usize
    requires within { filled ≤ length room.old }
    requires told { F.IsAlwaysCallable failed.now }
    ensures fits { filled + result ≤ length room.old }
    ensures before { take filled room.new ≡ take filled room.old }
    ensures came { Consumes (R.remaining input.old) (R.remaining input.new) (take result (drop filled room.new)) }
{
    match input.read(&mut room[filled..]) {
        Ok(more) => more,
        Err(error) => {
            failed(error);
            0
        }
    }
}
