// The cases of the calls index and point. A buffer is lent full of nines, so that a refused call is seen to leave it.
use crate::inner::numbers::low_word;
use counts::{Length, Radius};
use enumeration::Selector;
use script::inner::tell;
use script::input::number;
use script::output;

// index V L K, and the coordinates of the vector: its index by selector V.
pub fn index(rt: &impl Print, numbers: &[u64]) {
    let mut x = [0; 32];
    let Some(given) = numbers.get(3..) else {
        return;
    };
    let Some(x) = x.get_mut(..given.len()) else {
        return;
    };
    for (c, n) in x.iter_mut().zip(given) {
        *c = coordinate(*n);
    }
    let answer = points::index(selector(numbers), length(numbers), radius(numbers), x);
    tell(rt, answer, |n| output::answered(rt, n));
}

// What both calls are given first.
fn selector(numbers: &[u64]) -> Selector {
    Selector(number(numbers, 0) as usize)
}

fn length(numbers: &[u64]) -> Length {
    Length(number(numbers, 1) as usize)
}

fn radius(numbers: &[u64]) -> Radius {
    Radius(number(numbers, 2) as usize)
}

// The low 32 bits as a coordinate.
fn coordinate(n: u64) -> i32 {
    low_word(n).cast_signed()
}

// point V L K N B: what the call says of index N by selector V with a buffer of B coordinates, and what these are then.
pub fn point(rt: &impl Print, numbers: &[u64]) {
    let mut out = [9; 32];
    let Some(out) = out.get_mut(..number(numbers, 4) as usize) else {
        return;
    };
    let n = number(numbers, 3);
    let answer = points::point(selector(numbers), length(numbers), radius(numbers), n, out);
    tell(rt, answer, |()| output::accepted(rt, &[]));
    output::colon(rt);
    output::coordinates(rt, out);
}
