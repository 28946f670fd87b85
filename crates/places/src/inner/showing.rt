// What a place shows: the number of its answer, the reason or the distance, and the point of a sound or mended one or
// zeros for the others.
ghost use Rattle.std.specs.Prelude.{◌≡◌, ◌<◌};
ghost use Rattle.std.proofs.Math.ListN as listed;
ghost use Rattle.judging.specs.Seen.{Handed};
ghost use Rattle.numbering.specs.Numbered.{FoundIn};
ghost use Rattle.rules.specs.Judging.{answer_number, reason_number, reason_or_distance, shown, point_named, NamesPoint, Shows};
ghost use Rattle.tables.specs.Row.{length_of, IsRow};

use counts::Radius;
use judging::inner::Seen;
use numbering::inner::Numbering;
use product::inner::range::Found;
use rows::inner::row::Row;
use rules::{Judged, Reason};

// The point of an index in a row, by where it stands.
fn write_found(row: &Row, radius: usize, n: u64, found: Found, out: &mut [i32])
    requires { IsRow row.now × NamesPoint row.now radius n × FoundIn row.now radius n found
        × (listed.length out.old ≡ length_of row.now) }
    ensures { out.new ≡ point_named row.now radius n }
{
    Numbering::in_row(row, Radius(radius)).write_point(n, found, out);
}

// The same, where it is still to be sought.
fn write_sought(row: &Row, radius: usize, n: u64, out: &mut [i32])
    requires { IsRow row.now × NamesPoint row.now radius n × (listed.length out.old ≡ length_of row.now) }
    ensures { out.new ≡ point_named row.now radius n }
{
    let numbering = Numbering::in_row(row, Radius(radius));
    numbering.write_point(n, numbering.find(n), out);
}

// The point of a place that is sound or mended, and zeros for the others.
pub fn show(row: &Row, seen: Seen, out: &mut [i32])
    requires { IsRow row.now × Shows row.now seen.judged × Handed row.now seen.judged seen.found
        × (listed.length out.old ≡ length_of row.now) }
    ensures { out.new ≡ shown row.now seen.judged }
{
    match seen.judged {
        Judged::Sound { radius, index } => write_found(row, radius, index, seen.found, out),
        Judged::Mended { radius, index, .. } => write_sought(row, radius, index, out),
        Judged::Missing | Judged::Contested | Judged::Unreadable(_) => out.fill(0),
    }
}

// The number of an answer in the order of the counts.
pub fn answer_number(judged: Judged) -> usize
    ensures { (result ≡ answer_number judged) × (result < 5) }
{
    match judged {
        Judged::Sound { .. } => 0,
        Judged::Mended { .. } => 1,
        Judged::Missing => 2,
        Judged::Contested => 3,
        Judged::Unreadable(_) => 4,
    }
}

// The number of a reason.
fn reason_number(reason: Reason) -> u64
    ensures { result ≡ reason_number reason }
{
    match reason {
        Reason::NoSuchRadius => 10,
        Reason::TooWide => 14,
        Reason::PastEnd { .. } => 6,
        Reason::EmptyShape => 15,
    }
}

// The reason of an unreadable place, or the distance of a mended one; 0 where there is neither.
pub fn reason_or_distance(judged: Judged) -> u64
    ensures { result ≡ reason_or_distance judged }
{
    match judged {
        Judged::Mended { distance, .. } => distance,
        Judged::Unreadable(reason) => reason_number(reason),
        Judged::Sound { .. } | Judged::Missing | Judged::Contested => 0,
    }
}
