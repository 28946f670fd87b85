// The lines of the input, one after the other: each is written again, and if it is a case, it is run. The room is
// lent to the cases. What a line says of books, or of the layout, holds until the next one that does.
use crate::books::Shelf;
use crate::{books, checks, indices, pages, shells, vectors};
use script::{input, output};

pub fn run(rt: &impl Print, text: &[u8], room: &mut [u8]) {
    let mut shelf = books::one();
    for piece in text.split_inclusive(|byte| *byte == b'\n') {
        shelf = line(rt, shelf, piece.strip_suffix(b"\n").unwrap_or(piece), room);
    }
}

// Writes and runs a line; the books and the layout that are meant after it.
fn line(rt: &impl Print, shelf: Shelf, line: &[u8], room: &mut [u8]) -> Shelf {
    output::words(rt, line);
    // A room of a fixed size: the program takes no memory.
    let mut numbers = [0; 128];
    let n = input::read_numbers(line, &mut numbers);
    let next = case(rt, shelf, line, &numbers[..n], room);
    output::words(rt, b"\n");
    next
}

// The first letter of a line tells the case, or that it is one of books or of a layout; any other line is a remark.
fn case(rt: &impl Print, shelf: Shelf, line: &[u8], numbers: &[u64], room: &mut [u8]) -> Shelf {
    match input::first(line) {
        b'B' => return books::told(shelf, numbers),
        b'L' => return books::laid(shelf, numbers),
        b'c' => shells::count(rt, numbers),
        b'w' => shells::width(rt, numbers),
        b's' => shells::of_length(rt, numbers),
        b'i' => indices::index(rt, numbers),
        b'p' => indices::point(rt, numbers),
        b't' => checks::check(rt, numbers, room),
        b'r' => checks::place(rt, numbers, room),
        b'n' => vectors::nearest(rt, numbers),
        b'q' => vectors::quantize(rt, shelf, numbers, room),
        b'S' => vectors::send(rt, shelf, numbers, room),
        b'T' => pages::take(rt, shelf, numbers, room),
        b'C' => pages::collect(rt, shelf, numbers, room),
        b'R' => pages::read(rt, shelf, numbers, room),
        b'V' => pages::coefficient(rt, shelf, numbers, room),
        b'A' => pages::tally(rt, shelf, numbers, room),
        b'M' => pages::convert(rt, shelf, numbers, room),
        _ => (),
    }
    shelf
}
