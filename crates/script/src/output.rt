// What the cases write, to standard output: bytes, and numbers behind what they are put with. What cannot be written
// is let go.
use crate::inner::tell;
use answers::Refusal;

pub fn words(rt: &impl Print, text: &[u8]) {
    let _ = rt.write_all(text);
}

// A number behind these words.
fn field(rt: &impl Print, text: &str, n: u64) {
    let _ = print!(rt; "{text}{n}");
}

// What a call says first.
pub fn said(rt: &impl Print, n: u64) {
    field(rt, " = ", n);
}

// One more number.
pub fn next(rt: &impl Print, n: u64) {
    field(rt, " ", n);
}

// One more, by its sign and its magnitude.
pub fn signed(rt: &impl Print, negative: bool, magnitude: u64) {
    if negative {
        field(rt, " -", magnitude);
    } else {
        next(rt, magnitude);
    }
}

// That there is none.
pub fn none(rt: &impl Print) {
    words(rt, b" none");
}

// Between what a call says and what it leaves.
pub fn colon(rt: &impl Print) {
    words(rt, b":");
}

// Bytes or other numbers, one behind the other.
pub fn numbers<T: Copy + Into<u64>>(rt: &impl Print, many: &[T]) {
    for n in many {
        next(rt, (*n).into());
    }
}

// Coordinates, one behind the other.
pub fn coordinates(rt: &impl Print, vector: &[i32]) {
    for c in vector {
        signed(rt, *c < 0, c.unsigned_abs() as u64);
    }
}

// An answer of one number.
pub fn answered(rt: &impl Print, n: u64) {
    said(rt, 0);
    next(rt, n);
}

// An answer of no number, or of several: 0, and the numbers.
pub fn accepted(rt: &impl Print, answer: &[u64]) {
    said(rt, 0);
    numbers(rt, answer);
}

// What a call says that writes bytes, and what these are then.
pub fn left(rt: &impl Print, answer: Result<(), Refusal>, bytes: &[u8]) {
    tell(rt, answer, |()| accepted(rt, &[]));
    colon(rt);
    numbers(rt, bytes);
}

// What a refused call says: the number, the first value that it names, or 0, and the second of one that names two.
pub fn refused(rt: &impl Print, refusal: Refusal) {
    let numbers = answers::in_numbers(refusal);
    said(rt, numbers.0 as u64);
    next(rt, numbers.1 as u64);
    if numbers.3 == 2 {
        next(rt, numbers.2 as u64);
    }
}
