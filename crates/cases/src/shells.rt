// The cases of the call count, and of the width.
use counts::{Length, Radius};
use script::inner::tell;
use script::input::number;
use script::output;

// count L K: N.
pub fn count(rt: &impl Print, numbers: &[u64]) {
    let length = Length(number(numbers, 0) as usize);
    let radius = Radius(number(numbers, 1) as usize);
    let answer = shell::count(length, radius);
    tell(rt, answer, |n| output::answered(rt, n));
}

// width N: the width of this total.
pub fn width(rt: &impl Print, numbers: &[u64]) {
    output::said(rt, shell::width(number(numbers, 0)) as u64);
}

#[derive(Clone, Copy)]
struct Shells {
    usable: u64,
    points: u64,
}

// shells L: how many of the radii 0 to 32 are usable at a length, and how many points those shells have in all.
pub fn of_length(rt: &impl Print, numbers: &[u64]) {
    let shells = shells_of(number(numbers, 0) as usize);
    output::said(rt, shells.usable);
    output::next(rt, shells.points);
}

fn shells_of(length: usize) -> Shells {
    let mut usable: u64 = 0;
    let mut points: u64 = 0;
    for radius in 0..=32 {
        if let Ok(n) = shell::count(Length(length), Radius(radius)) {
            usable = usable.wrapping_add(1);
            points = points.wrapping_add(n);
        }
    }
    Shells { usable, points }
}
