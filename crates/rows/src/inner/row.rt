// A row of the table, lent as its bytes, and its fields.
ghost use Rattle.std.specs.Prelude.{◌≡◌, ◌<◌, ℕ, [], slice_index_or};
ghost use Rattle.std.proofs.Math.ListN as listed;
ghost use Rattle.tables.specs.Row.{row_length, byte_of, length_of, radii_of, radius_at, pair_of, step_of, places_of, selector_of};
ghost use Rattle.tables.specs.Table.{rows_of, row_at};

use counts::{Length, Radius};
use enumeration::Selector;

// The bytes of a row.
pub type Row = [u8; 16];

// The rows of a table.
#[tactic(auto, using(crate::proofs::Chunks::chunk_is))]
pub fn rows(table: &[u8]) -> &[Row]
    ensures count { listed.length result.now ≡ rows_of table.now }
    ensures each { (r : ℕ) → r < rows_of table.now → slice_index_or result.now r [] ≡ row_at table.now r }
{
    let (rows, _) = table.as_chunks::<16>();
    rows
}

// The row of a number.
pub fn row_at(table: &[u8], number: usize) -> &Row
    requires { number < rows_of table.now }
    ensures { result.now ≡ row_at table.now number }
{
    &rows(table)[number]
}

// Byte `at` of a row.
#[tactic(auto, unfolding(tables::specs::Row::byte_of))]
pub fn byte(row: &Row, at: usize) -> usize
    requires { at < row_length }
    ensures { (result ≡ byte_of row.now at) × (result < 256) }
{
    row[at] as usize
}

// The number of two bytes at `at`, high byte first.
fn pair(row: &Row, at: usize) -> usize
    requires { at < 15 }
    ensures { (result ≡ pair_of row.now at) × (result < 65536) }
{
    256 * byte(row, at) + byte(row, 1 + at)
}

pub fn length(row: &Row) -> Length
    ensures { result.0 ≡ length_of row.now }
{
    Length(byte(row, 0))
}

// The number of radii.
pub fn radii(row: &Row) -> usize
    ensures { result ≡ radii_of row.now }
{
    byte(row, 1)
}

// The radius of a radius number.
pub fn radius(row: &Row, number: usize) -> Radius
    requires { number < 8 }
    ensures { (result.0 ≡ radius_at row.now number) × (result.0 < 256) }
{
    Radius(byte(row, 2 + number))
}

pub fn step(row: &Row) -> usize
    ensures { (result ≡ step_of row.now) × (result < 65536) }
{
    pair(row, 10)
}

// The places in this row.
pub fn places(row: &Row) -> usize
    ensures { (result ≡ places_of row.now) × (result < 65536) }
{
    pair(row, 12)
}

// The selector of the row's enumeration.
pub fn selector(row: &Row) -> Selector
    ensures { result.0 ≡ selector_of row.now }
{
    Selector(byte(row, 14))
}
