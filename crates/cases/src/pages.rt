// The cases of the calls of the page and of the conversions. A line has the mode and two numbers for the call, then the
// size and the bytes of the page, the size and the bytes of what arrives, and a table. The books and the layout are
// those that were told before. A buffer for a point is lent full of nines.
use crate::books::Shelf;
use crate::checks;
use crate::inner::numbers::{Numbers, low_byte};
use conversion::{to_cell_by_cell, to_states_first};
use floats::inner::{is_negative, is_unusable, nearest_whole};
use layout::Layout;
use page::{Answer, Counts};
use rules::{Mode, Reason};
use script::inner::tell;
use script::output;

// What a line gives beside the page and what arrives.
#[derive(Clone, Copy)]
struct Case<'a> {
    mode: Mode,
    // the two numbers for the call
    first: usize,
    second: usize,
    table: &'a [u8],
}

// A call that is given such a case, a page and what arrives; nothing where there is too little room for one.
fn run<F: FnOnce(Case, &mut [u8], &mut [u8])>(numbers: &[u64], room: &mut [u8], call: F)
    requires { F.IsAlwaysCallable call }
{
    let mut numbers = Numbers::of(numbers);
    let mode = Mode(numbers.next() as usize);
    let first = numbers.next() as usize;
    let second = numbers.next() as usize;
    let mut page = [0u8; 64];
    let mut arrived = [0u8; 64];
    let Some(page) = numbers.sized(&mut page, low_byte) else {
        return;
    };
    let Some(arrived) = numbers.sized(&mut arrived, low_byte) else {
        return;
    };
    let Some(table) = checks::table(numbers, room) else {
        return;
    };
    let case = Case {
        mode,
        first,
        second,
        table,
    };
    call(case, page, arrived);
}

// Take 0 0 0: what the call says, and the page then.
pub fn take(rt: &impl Print, shelf: Shelf, numbers: &[u64], room: &mut [u8]) {
    run(numbers, room, |case, page, arrived| {
        let answer = page::take(case.table, shelf.books, shelf.layout, page, arrived);
        output::left(rt, answer, page);
    });
}

// Collect 0 0 0: the number of refused takes, and the page then.
pub fn collect(rt: &impl Print, shelf: Shelf, numbers: &[u64], room: &mut [u8]) {
    run(numbers, room, |case, page, arrived| {
        let refused = page::collect(case.table, shelf.books, shelf.layout, page, arrived);
        output::said(rt, refused as u64);
        output::colon(rt);
        output::numbers(rt, page);
    });
}

// Move 0 0 0: the page from its layout into the other one; what the call says, and the other page then. What arrives
// is what the other page holds before.
pub fn convert(rt: &impl Print, shelf: Shelf, numbers: &[u64], room: &mut [u8]) {
    run(numbers, room, |case, page, other| {
        let answer = match shelf.layout {
            Layout::CellByCell => to_states_first(case.table, shelf.books, page, other),
            Layout::StatesFirst => to_cell_by_cell(case.table, shelf.books, page, other),
        };
        output::left(rt, answer, other);
    });
}

// Read M P B: what the call says in mode M of place P with a buffer of B coordinates, and what these are then.
pub fn read(rt: &impl Print, shelf: Shelf, numbers: &[u64], room: &mut [u8]) {
    run(numbers, room, |case, page, _| {
        let mut out = [9; 20];
        let Some(out) = out.get_mut(..case.second) else {
            return;
        };
        let answer = page::read(
            case.mode,
            case.table,
            shelf.books,
            shelf.book,
            shelf.layout,
            page,
            case.first,
            out,
        );
        tell(rt, answer, |shown| found(rt, shown, |()| ()));
        output::colon(rt);
        output::coordinates(rt, out);
    });
}

// Value M P I: what the call says in mode M of coordinate I of place P.
pub fn coefficient(rt: &impl Print, shelf: Shelf, numbers: &[u64], room: &mut [u8]) {
    run(numbers, room, |case, page, _| {
        let answer = page::coefficient(
            case.mode,
            case.table,
            shelf.books,
            shelf.book,
            shelf.layout,
            page,
            case.first,
            case.second,
        );
        tell(rt, answer, |shown| {
            found(rt, shown, |value| scaled(rt, value))
        });
    });
}

// Answers M 0 0: the five counts of the tally in mode M.
pub fn tally(rt: &impl Print, shelf: Shelf, numbers: &[u64], room: &mut [u8]) {
    run(numbers, room, |case, page, _| {
        let answer = page::tally(
            case.mode,
            case.table,
            shelf.books,
            shelf.book,
            shelf.layout,
            page,
        );
        tell(rt, answer, |counts| counted(rt, counts));
    });
}

fn counted(rt: &impl Print, counts: Counts) {
    let five = [
        counts.sound,
        counts.mended,
        counts.missing,
        counts.contested,
        counts.unreadable,
    ];
    output::accepted(rt, &five.map(|count| count as u64));
}

// What a place shows: its word, the distance of a mended one, and what is told of the value that it carries.
fn found<T: Copy, F: FnOnce(T)>(rt: &impl Print, answer: Answer<T>, told: F)
    requires { F.IsAlwaysCallable told }
{
    match answer {
        Answer::Sound(value) => {
            output::words(rt, b" = sound");
            told(value);
        }
        Answer::Mended { value, distance } => {
            output::words(rt, b" = mended");
            output::next(rt, distance);
            told(value);
        }
        Answer::Missing => output::words(rt, b" = missing"),
        Answer::Contested => output::words(rt, b" = contested"),
        Answer::Unreadable(reason) => {
            output::words(rt, b" = unreadable");
            explained(rt, reason);
        }
    }
}

// The number of the reason, and the distance of reason 6.
fn explained(rt: &impl Print, reason: Reason) {
    match reason {
        Reason::NoSuchRadius => output::next(rt, 10),
        Reason::TooWide => output::next(rt, 14),
        Reason::PastEnd { distance } => {
            output::next(rt, 6);
            output::next(rt, distance);
        }
        Reason::EmptyShape => output::next(rt, 15),
    }
}

// A value as a whole number over 256; a zero that is not positive has its sign too.
fn scaled(rt: &impl Print, v: f32) {
    if is_unusable(v) {
        output::none(rt);
    } else {
        output::signed(rt, is_negative(1.0 / v), nearest_whole(v) as u64);
    }
}
