// A place read: its point, or one of its coefficients.
ghost use Rattle.std.specs.Prelude.{[], ◌≡◌, ◌≤◌, ◌<◌, pos, nat_abs, ◌*ℤ◌};
ghost use Rattle.std.proofs.Math.ListN as listed;
ghost use Rattle.answers.specs.Checks.{first_of, leaves};
ghost use Rattle.floats.specs.Exact.{over256};
ghost use Rattle.tables.specs.Row.{length_of, IsRow};
ghost use Rattle.rules.specs.Judging.{judge, shown, Shows};
ghost use Rattle.rules.specs.Reading.{told, carried, carried_by, value_in};
ghost use Rattle.judging.specs.Seen.{Handed};
ghost use Rattle.cells.specs.Spots.{SpotIn, cell_there};
ghost use Rattle.page.specs.Bounds.{read_there, coefficient_there};
ghost use Rattle.page.specs.Meanings.{answer_meaning, read_meaning, values_in, coefficient_meaning, coefficient_values};

use crate::Answer;
use answers::Refusal;
use cells::inner::spot::Spot;
use floats::inner::over_256;
use judging::inner::Seen;
use places::inner::looking::look;
use places::inner::showing::show;
use rows::inner::row::{Row, length, step};
use rules::{Judged, Mode};

// The answer that a caller sees; a sound or mended place carries the value.
fn answer<T: Copy>(judged: Judged, value: T) -> Answer<T>
    ensures { (answer_meaning result ≡ told judged) × (values_in result ≡ carried judged value) }
{
    match judged {
        Judged::Sound { .. } => Answer::Sound(value),
        Judged::Mended { distance, .. } => Answer::Mended { value, distance },
        Judged::Missing => Answer::Missing,
        Judged::Contested => Answer::Contested,
        Judged::Unreadable(reason) => Answer::Unreadable(reason),
    }
}

// What read does at the cell of a place in this row: the checks 4 and 12, and the work.
pub fn read_at(
    mode: Mode,
    row: &Row,
    page: &[u8],
    spot: Spot,
    out: &mut [i32],
) -> Result<Answer<()>, Refusal>
    requires { IsRow row.now × SpotIn page.now spot }
    ensures says { read_meaning result
        ≡ first_of (read_there row.now spot.named (cell_there page.now spot) (listed.length out.old))
        (told (judge mode.0 row.now (cell_there page.now spot))) }
    ensures leaves { out.new
        ≡ leaves (read_there row.now spot.named (cell_there page.now spot) (listed.length out.old))
        (shown row.now (judge mode.0 row.now (cell_there page.now spot)))
        out.old }
{
    if out.len() != length(row).0 {
        return Err(Refusal::BufferLength);
    }
    let seen = look(mode, row, page, spot).ok_or(Refusal::BadCell)?;
    show(row, seen, out);
    Ok(answer(seen.judged, ()))
}

// A coordinate times the step, over 256. The product stays below 2^24.
fn scaled(c: i32, step: usize) -> f32
    requires { (nat_abs c ≤ 32) × (step < 65536) }
    ensures { result ≡ over256 (c *ℤ pos step) }
{
    over_256(c * step as i32)
}

// The value of a coordinate of what a place shows.
fn value_of(row: &Row, seen: Seen, coordinate: usize) -> f32
    requires { IsRow row.now × Shows row.now seen.judged × Handed row.now seen.judged seen.found
        × (coordinate < length_of row.now) }
    ensures { result ≡ value_in row.now (shown row.now seen.judged) coordinate }
{
    let l = length(row).0;
    // A room of a fixed size: no call takes memory.
    let mut point = [0i32; 16];
    show(row, seen, &mut point[..l]);
    let c = point[coordinate];
    scaled(c, step(row))
}

// What coefficient does at the cell of a place in this row: the checks 13 and 12, and the work.
pub fn coefficient_at(
    mode: Mode,
    row: &Row,
    page: &[u8],
    spot: Spot,
    coordinate: usize,
) -> Result<Answer<f32>, Refusal>
    requires { IsRow row.now × SpotIn page.now spot }
    ensures says { coefficient_meaning result
        ≡ first_of (coefficient_there row.now spot.named (cell_there page.now spot) coordinate)
        (told (judge mode.0 row.now (cell_there page.now spot))) }
    ensures carries { coefficient_values result
        ≡ leaves (coefficient_there row.now spot.named (cell_there page.now spot) coordinate)
        (carried_by row.now (judge mode.0 row.now (cell_there page.now spot)) coordinate) [] }
{
    if length(row).0 <= coordinate {
        return Err(Refusal::NoSuchCoordinate);
    }
    let seen = look(mode, row, page, spot).ok_or(Refusal::BadCell)?;
    Ok(answer(seen.judged, value_of(row, seen, coordinate)))
}
