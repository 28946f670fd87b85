// The radius number and the codeword of a vector, and the bytes of its record. Each function says what it asks of
// its caller.
ghost use Rattle.std.specs.Prelude.{◌≡◌, ◌≤◌, length};
ghost use Rattle.tables.specs.Row.{length_of, IsRow};
ghost use Rattle.numbering.specs.Numbered.{index_in};
ghost use Rattle.records.specs.Naming.{InField};
ghost use Rattle.coefficients.specs.Coefficients.{AllUsable};
ghost use Rattle.coefficients.specs.Points.{magnitudes_of, total_of, point_of};
ghost use Rattle.coding.specs.Bounds.{Accepted, Codable};
ghost use Rattle.coding.specs.Coded.{radius_number_for, codeword_for, record_named};

use coefficients::inner::coefficients::{write_magnitudes, write_signed};
use coefficients::inner::radius::choose;
use numbering::inner::Numbering;
use records::inner::{Named, write};
use rows::inner::row::Row;
use shares::inner::{share, sum};

// The radius number, and the codeword.
#[derive(Clone, Copy)]
struct Coded {
    number: usize,
    codeword: u64,
}

// The magnitudes of the coefficients, and their sum.
fn measure(coefficients: &[f32], magnitudes: &mut [u32]) -> u32
    requires { AllUsable coefficients.now × (length coefficients.now ≤ 16) × (length magnitudes.old ≡ length coefficients.now) }
    ensures { (result ≡ total_of coefficients.now) × (magnitudes.new ≡ magnitudes_of coefficients.now) }
{
    write_magnitudes(coefficients, magnitudes);
    sum(magnitudes)
}

// The codeword of a radius above 0. `magnitudes` holds those of the coefficients, and after share() those of the
// point.
fn codeword(numbering: Numbering, total: u32, coefficients: &[f32], magnitudes: &mut [u32]) -> u64
    requires { Codable numbering total coefficients.now magnitudes.old }
    ensures { result ≡ index_in numbering (point_of numbering.radius.0 coefficients.now) }
{
    let n = coefficients.len();
    // Rooms of a fixed size, of which the first n are used: no call takes memory.
    let mut rests = [0; 16];
    let mut point = [0; 16];
    share(numbering.radius.0, total, magnitudes, &mut rests[..n]);
    write_signed(coefficients, magnitudes, &mut point[..n]);
    numbering.index(&point[..n])
}

// The radius number and the codeword. At radius 0 the point is zero, and its index 0.
fn code(row: &Row, coefficients: &[f32]) -> Coded
    requires { IsRow row.now × (length coefficients.now ≡ length_of row.now) × AllUsable coefficients.now }
    ensures { (result.number ≡ radius_number_for row.now coefficients.now)
        × (result.codeword ≡ codeword_for row.now coefficients.now) }
{
    // A room of a fixed size: no call takes memory.
    let mut room = [0; 16];
    let magnitudes = &mut room[..coefficients.len()];
    let total = measure(coefficients, magnitudes);
    let number = choose(row, total as usize);
    let numbering = Numbering::of_number(row, number);
    if numbering.radius.0 == 0 {
        return Coded {
            number,
            codeword: 0,
        };
    }
    let codeword = codeword(numbering, total, coefficients, magnitudes);
    Coded { number, codeword }
}

// The record of a vector in this row, with the book, the place and the row's number that it is to name.
pub fn write_record(row: &Row, named: Named, coefficients: &[f32], out: &mut [u8])
    requires { Accepted row.now coefficients.now out.old × InField named }
    ensures { out.new ≡ record_named named row.now coefficients.now }
{
    let coded = code(row, coefficients);
    write(named, coded.number as u64, coded.codeword, out);
}
