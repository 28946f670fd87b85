// A run of coefficients: how long it has to be, and the coefficients of a place.
ghost use Rattle.std.specs.Prelude.{◌≡◌, ◌+◌, ◌≤◌};
ghost use Rattle.std.proofs.Math.ListN as listed;
ghost use Rattle.tables.specs.Table.{Good};
ghost use Rattle.runs.specs.Run.{coordinates_in};

use rows::inner::row::{length, places, rows};

// The coordinates of all places together: those of a row are its places times its length.
#[tactic(auto, using(crate::proofs::Counted::no_row, crate::proofs::Counted::row_more, crate::proofs::Counted::rows_small))]
pub fn coordinates(table: &[u8]) -> usize
    requires { Good table.now }
    ensures { result ≡ coordinates_in table.now }
{
    let mut sum = 0;
    for row in rows(table) {
        sum += places(row) * length(row).0;
    }
    sum
}

// The coefficients of a place, as many as its length, from where they begin.
pub fn vector_at(run: &[f32], from: usize, l: usize) -> &[f32]
    requires { from + l ≤ listed.length run.now }
    ensures { result.now ≡ listed.take l (listed.drop from run.now) }
{
    &run[from..from + l]
}
