// The cases of the call check, and of the rows of places. A table is given by its size in bytes, the 16 bytes of
// the row that it has again and again, and then changes, each a position and what stands there.
use crate::inner::numbers::{Numbers, low_byte};
use pairing::inner::survey::survey;
use rows::inner::row;
use rows::inner::row::{Row, row_at};
use script::inner::tell;
use script::input::number;
use script::output;

// table, and then the table: its places, by the call check.
pub fn check(rt: &impl Print, numbers: &[u64], room: &mut [u8]) {
    if let Some(table) = table(Numbers::of(numbers), room) {
        tell(rt, pairing::check(table), |places| {
            output::answered(rt, places as u64)
        });
    }
}

// row P, and then a table: of place P the row; and the row's length, step, places and radii.
pub fn place(rt: &impl Print, numbers: &[u64], room: &mut [u8]) {
    let mut numbers = Numbers::of(numbers);
    let place = numbers.next() as usize;
    if let Some(table) = table(numbers, room) {
        surveyed(rt, table, place);
    }
}

// The table that the numbers that are left give, in the room that is lent; none where it is too small.
pub fn table<'a>(mut numbers: Numbers, room: &'a mut [u8]) -> Option<&'a mut [u8]> {
    let size = numbers.next() as usize;
    let table = room.get_mut(..size)?;
    let mut row = [0u8; 16];
    numbers.fill(&mut row, low_byte);
    repeat(table, &row);
    change(table, numbers.rest);
    Some(table)
}

// The row, again and again.
fn repeat(table: &mut [u8], row: &[u8; 16]) {
    for (i, byte) in table.iter_mut().enumerate() {
        *byte = row[i % 16];
    }
}

fn change(table: &mut [u8], changes: &[u64]) {
    for change in changes.chunks(2) {
        if let Some(place) = table.get_mut(number(change, 0) as usize) {
            *place = low_byte(number(change, 1));
        }
    }
}

fn surveyed(rt: &impl Print, table: &[u8], place: usize) {
    match survey(table, place) {
        Ok(surveyed) => {
            if place < surveyed.places {
                fields(rt, row_at(table, surveyed.row), surveyed.row);
            } else {
                output::none(rt);
                output::next(rt, surveyed.places as u64);
            }
        }
        Err(refusal) => output::refused(rt, refusal),
    }
}

fn fields(rt: &impl Print, row: &Row, number: usize) {
    output::said(rt, number as u64);
    output::colon(rt);
    output::next(rt, row::length(row).0 as u64);
    output::next(rt, row::step(row) as u64);
    output::next(rt, row::places(row) as u64);
    output::colon(rt);
    radii(rt, row);
}

// The radii that are in the row.
fn radii(rt: &impl Print, row: &Row) {
    for n in 0..row::radii(row).min(8) {
        output::next(rt, row::radius(row, n).0 as u64);
    }
}
