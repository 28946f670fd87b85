// A run of coefficients for all places of a book, and the way through it, place by place.
ghost use Rattle.std.specs.Prelude.{◌≡◌, ◌<◌};
ghost use Rattle.tables.specs.Table.{row_of, row_for};
ghost use Rattle.runs.specs.Run.{vector_for};
ghost use Rattle.runs.specs.Way.{Reached, Passed};
ghost use Rattle.sending.specs.Bounds.{Measured};

use crate::inner::run::vector_at;
use pairing::inner::walking::{Walk, walk_from, walked};
use rows::inner::row::{Row, length, row_at};

// A good table, its number of places, the row of place 0, and a coefficient for each of its coordinates.
#[derive(Clone, Copy)]
pub struct Run<'a> {
    pub table: &'a [u8],
    pub places: usize,
    pub first: usize,
    pub coefficients: &'a [f32],
    ghost measured: { ∥ Measured table.now places first coefficients.now ∥₁ },
}

// Where the way stands: the row that it is in, and where the coefficients of the next place begin.
#[derive(Clone, Copy)]
pub struct Way {
    pub walk: Walk,
    pub from: usize,
}

// A place on the way: its row, by number and bytes, and its coefficients.
#[derive(Clone, Copy)]
pub struct Stop<'a> {
    pub number: usize,
    pub row: &'a Row,
    pub vector: &'a [f32],
}

impl<'a> Run<'a> {
    // The way from place 0 on.
    pub fn way(&self) -> Way
        ensures { Reached self.now.table.now result.walk.row result.walk.end result.from 0 }
    {
        Way {
            walk: walk_from(self.table, self.first, 0),
            from: 0,
        }
    }

    // The place that the way has reached; it goes on to the next.
    pub fn next(&self, way: &mut Way, place: usize) -> Stop<'a>
        requires { Reached self.now.table.now way.old.walk.row way.old.walk.end way.old.from place × (place < self.now.places) }
        ensures goes_on { Passed self.now.table.now way.new.walk.row way.new.walk.end way.new.from place }
        ensures its_row { (result.number ≡ row_of self.now.table.now place) × (result.row.now ≡ row_for self.now.table.now place) }
        ensures its_vector { result.vector.now ≡ vector_for self.now.table.now self.now.coefficients.now place }
    {
        way.walk = walked(self.table, way.walk, place);
        let number = way.walk.row;
        let row = row_at(self.table, number);
        let l = length(row).0;
        let vector = vector_at(self.coefficients, way.from, l);
        way.from += l;
        Stop {
            number,
            row,
            vector,
        }
    }
}
