// The input, and what a line of it holds: the letter that it begins with, and numbers, decimal and of 64 bits. A number
// with a minus sign is taken from 2^64.
ghost use Rattle.std.specs.Io.KnownBytes.{Consumes};
ghost use Rattle.std.specs.Prelude.{◌≡◌, ◌≤◌, length, slice_index, take};

use filling::inner::fill;
use std::io::Read;

// Fills the room with what comes, until it is full, the input ends or a read fails; how many bytes these are.
pub fn read_full<R: Read>(input: &mut R, room: &mut [u8]) -> usize
    ensures fits { result ≤ length room.new }
    ensures part { result ≡ length (take result room.new) }
    ensures came { Consumes (R.remaining input.old) (R.remaining input.new) (take result room.new) }
{
    fill(input, room, |_| {})
}

// The first byte of a line, and 0 where there is none.
pub fn first(line: &[u8]) -> u8
    ensures { result ≡ slice_index line.now 0 }
{
    line.first().copied().unwrap_or(0)
}

// The numbers of a line, as many as there is room for; how many there are.
pub fn read_numbers(line: &[u8], numbers: &mut [u64]) -> usize
    ensures { result ≤ length numbers.old }
{
    let mut rest = line;
    for (n, number) in numbers.iter_mut().enumerate() {
        match first_number(rest) {
            Some((value, behind)) => {
                *number = value;
                rest = behind;
            }
            None => return n,
        }
    }
    numbers.len()
}

// The first number that stands in these bytes, with the sign in front of it, and what stands behind it.
fn first_number(bytes: &[u8]) -> Option<(u64, &[u8])> {
    let start = bytes.iter().position(|byte| byte.is_ascii_digit())?;
    let (before, from) = bytes.split_at(start);
    let count = from.iter().take_while(|byte| byte.is_ascii_digit()).count();
    let (digits, behind) = from.split_at(count);
    let magnitude = decimal(digits);
    let value = if before.ends_with(b"-") {
        magnitude.wrapping_neg()
    } else {
        magnitude
    };
    Some((value, behind))
}

fn decimal(digits: &[u8]) -> u64 {
    digits.iter().fold(
        0,
        |n: u64, digit| n.wrapping_mul(10).wrapping_add((digit % 16) as u64),
    )
}

// A number of the line, and 0 where there are fewer.
pub fn number(numbers: &[u64], i: usize) -> u64
    ensures { result ≡ slice_index numbers.now i }
{
    numbers.get(i).copied().unwrap_or(0)
}
