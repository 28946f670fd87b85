// Runs cases through the calls. Standard input, up to 131,072 bytes of it, has a case a line: a word that tells the
// call, and numbers. Each line is written again, with what the call said behind it: 0 and its values, or a refusal's
// number and what it names. A line `Books N B` tells the number of books and the book for the lines that follow, and a
// line `Layout N` the layout of their pages. The file `stdin` has the cases of docs/RULES.md, "Worked cases", and more;
// the file `stdout` holds what they are to say: the values of the rules, and else what another program worked out.
#![tactic(auto)]

mod books;
mod checks;
mod indices;
mod inner;
mod lines;
mod pages;
mod shells;
mod vectors;

use script::input::read_full;

fn main(rt: HostRuntime) {
    // Rooms of a fixed size: the program takes no memory.
    let mut text = [0u8; 131072];
    let n = read_full(&mut rt.stdin(), &mut text);
    let mut room = [0u8; 4096];
    lines::run(&rt, &text[..n], &mut room);
}
