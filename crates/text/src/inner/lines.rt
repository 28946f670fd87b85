// The lines of the listing. 256 bytes of room are enough for each. Each is lent a buffer and told where to begin, as
// its contract says: `Wrote`.
ghost use Rattle.std.specs.Prelude.{◌+◌, ◌≤◌, map, length};
ghost use Rattle.buffers.specs.Written.{Wrote};
ghost use Rattle.wording.specs.Text.{decimal, line, place_text, last_text, refused_text};

use crate::inner::fields::Line;

// The line of a place: its number, the number of its answer, a third number that is the reason or the distance, and at
// most 16 coordinates. The answer is a number and no enum: what is promised here is promised of any number.
pub fn write_place_line(
    place: usize,
    answer: usize,
    third: u64,
    coordinates: &[i32],
    at: usize,
    out: &mut [u8],
) -> usize
    requires { (length coordinates.now ≤ 16) × (at + 256 ≤ length out.old) }
    ensures { Wrote out.old at (place_text place answer third coordinates.now) 256 result out.new }
{
    let mut line = Line { out, end: at };
    line.write_decimal(place as u64);
    line.write_word(answer);
    line.write_number(third);
    line.write_integers(coordinates);
    line.write_byte(b'\n');
    line.end
}

// A line of numbers, at most six, behind a word.
fn write_numbers_line(word: &[u8], numbers: &[u64], at: usize, out: &mut [u8]) -> usize
    requires { (length word.now ≤ 10) × (length numbers.now ≤ 6) × (at + 256 ≤ length out.old) }
    ensures { Wrote out.old at (line word.now (map decimal numbers.now)) 256 result out.new }
{
    let mut line = Line { out, end: at };
    line.write_text(word);
    line.write_numbers(numbers);
    line.write_byte(b'\n');
    line.end
}

// The last line: at most six numbers behind the word.
pub fn write_last_line(numbers: &[u64], at: usize, out: &mut [u8]) -> usize
    requires { (length numbers.now ≤ 6) × (at + 256 ≤ length out.old) }
    ensures { Wrote out.old at (last_text numbers.now) 256 result out.new }
{
    write_numbers_line(b"tally", numbers, at, out)
}

// The line of a refusal: at most three numbers behind the word.
pub fn write_refused_line(numbers: &[u64], at: usize, out: &mut [u8]) -> usize
    requires { (length numbers.now ≤ 3) × (at + 256 ≤ length out.old) }
    ensures { Wrote out.old at (refused_text numbers.now) 256 result out.new }
{
    write_numbers_line(b"refused", numbers, at, out)
}
