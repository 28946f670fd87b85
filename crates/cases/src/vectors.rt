// The cases of the calls quantize and send, and of the whole number that a coefficient becomes. A coefficient is given
// by its bit pattern. The books are those that were told before. A buffer is lent full of nines, so that a refused call
// is seen to leave it.
use crate::books::Shelf;
use crate::checks;
use crate::inner::numbers::{Numbers, low_word};
use answers::Refusal;
use floats::inner::{from_pattern, is_unusable, nearest_whole};
use script::input::number;
use script::output;

// The low 32 bits as a coefficient.
fn coefficient(n: u64) -> f32 {
    from_pattern(low_word(n))
}

// nearest B: the magnitude of the whole number nearest to 256 times the coefficient.
pub fn nearest(rt: &impl Print, numbers: &[u64]) {
    let x = coefficient(number(numbers, 0));
    if is_unusable(x) {
        output::refused(rt, Refusal::UnusableCoefficient { coordinate: 0 });
    } else {
        output::answered(rt, nearest_whole(x) as u64);
    }
}

// quantize P B C, then C coefficients and a table: what the call says of place P with a record of B bytes, and what
// these are then.
pub fn quantize(rt: &impl Print, shelf: Shelf, numbers: &[u64], room: &mut [u8]) {
    run(rt, numbers, room, |table, place, coefficients, out| {
        quantizer::quantize(table, shelf.books, shelf.book, place, coefficients, out)
    });
}

// Send 0 B C, then the same: what the call says of the page with a buffer of B bytes, and what these are then.
pub fn send(rt: &impl Print, shelf: Shelf, numbers: &[u64], room: &mut [u8]) {
    run(rt, numbers, room, |table, _, coefficients, out| {
        sending::send(table, shelf.books, shelf.book, coefficients, out)
    });
}

// A call that is given a table, a place, coefficients and a buffer; nothing where there is too little room for one.
fn run<F: FnOnce(&[u8], usize, &[f32], &mut [u8]) -> Result<(), Refusal>>(
    rt: &impl Print,
    numbers: &[u64],
    room: &mut [u8],
    call: F,
)
    requires { F.IsAlwaysCallable call }
{
    let mut numbers = Numbers::of(numbers);
    let place = numbers.next() as usize;
    let size = numbers.next() as usize;
    let mut coefficients = [0.0f32; 20];
    let mut out = [9; 40];
    let Some(coefficients) = numbers.sized(&mut coefficients, coefficient) else {
        return;
    };
    let Some(table) = checks::table(numbers, room) else {
        return;
    };
    let Some(out) = out.get_mut(..size) else {
        return;
    };
    let answer = call(table, place, coefficients, out);
    output::left(rt, answer, out);
}
