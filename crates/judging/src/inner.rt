// The answer of a cell, in a good row and a mode.
ghost use Rattle.std.specs.Prelude.{◌≡◌, ◌≤◌, ◌<◌, length};
ghost use Rattle.numbering.specs.Numbered.{total_in, names_in};
ghost use Rattle.tables.specs.Row.{radii_of, radius_at, IsRow};
ghost use Rattle.records.specs.Record.{record_length};
ghost use Rattle.rules.specs.Judging.{judge_codeword, judge_in, judge_record};
ghost use Rattle.judging.specs.Seen.{NotSound, Nowhere, Handed, Sees};

use numbering::inner::{Missed, Numbering};
use product::inner::range::Found;
use ranges::inner::{power, width};
use records::inner::{codeword_in, radius_number_in};
use rows::inner::row::{Row, radii};
use rules::{Judged, Mode, PLAIN, Reason};

// The answer of a cell, and where the index of a sound one stands, so that the point need not be sought again.
#[derive(Clone, Copy)]
pub struct Seen {
    pub judged: Judged,
    pub found: Found,
}

// A codeword from the total on: past the width; in plain mode past the end; mended to an empty shape, or mended.
fn judge_past(mode: Mode, numbering: Numbering, total: u64, n: u64) -> Judged
    requires { (total ≡ total_in numbering) × (0 < total) × (total ≤ n) }
    ensures { (result ≡ judge_codeword mode.0 (names_in numbering) total numbering.radius.0 n) × NotSound result }
{
    let b = width(total) as usize;
    if power(b) <= n {
        return Judged::Unreadable(Reason::TooWide);
    }
    let distance = n - total;
    if mode.0 == PLAIN {
        return Judged::Unreadable(Reason::PastEnd { distance });
    }
    let index = n - power(b - 1);
    if numbering.names(index) {
        return Judged::Mended {
            radius: numbering.radius.0,
            index,
            distance,
        };
    }
    Judged::Unreadable(Reason::EmptyShape)
}

// An answer that shows no point, or one that is still to be sought.
fn unseen(judged: Judged) -> Seen
    ensures { (result.judged ≡ judged) × Nowhere result.found }
{
    Seen {
        judged,
        found: Found::NOWHERE,
    }
}

// A codeword of the shell of a radius number. Below the total it is below 2^b too.
fn judge_codeword(mode: Mode, row: &Row, number: usize, n: u64) -> Seen
    requires { IsRow row.now × (number < radii_of row.now) }
    ensures { (result.judged ≡ judge_in mode.0 row.now (radius_at row.now number) n)
        × Handed row.now result.judged result.found }
{
    let numbering = Numbering::of_number(row, number);
    match numbering.seek(n) {
        Ok(found) => Seen {
            judged: Judged::Sound {
                radius: numbering.radius.0,
                index: n,
            },
            found,
        },
        Err(Missed::Empty) => unseen(Judged::Unreadable(Reason::EmptyShape)),
        Err(Missed::Past { total }) => unseen(judge_past(mode, numbering, total, n)),
    }
}

// A held record, in its row.
fn judge_record(mode: Mode, row: &Row, bytes: &[u8]) -> Seen
    requires { IsRow row.now × (length bytes.now ≡ record_length) }
    ensures { (result.judged ≡ judge_record mode.0 row.now bytes.now) × Handed row.now result.judged result.found }
{
    let chosen = radius_number_in(bytes);
    if radii(row) <= chosen {
        return unseen(Judged::Unreadable(Reason::NoSuchRadius));
    }
    judge_codeword(mode, row, chosen, codeword_in(bytes))
}

// A cell by its state.
pub fn judge(mode: Mode, row: &Row, state: u8, bytes: &[u8]) -> Seen
    requires { IsRow row.now × (length bytes.now ≡ record_length) }
    ensures { Sees mode.0 row.now (record { state = state; bytes = bytes.now }) result }
{
    if state == 0 {
        return unseen(Judged::Missing);
    }
    if state != 1 {
        return unseen(Judged::Contested);
    }
    judge_record(mode, row, bytes)
}
