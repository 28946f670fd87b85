// A shell's numbering, by value, and what can be asked of it.
ghost use Rattle.std.specs.Prelude.{◌≡◌};
ghost use Rattle.selectors.specs.Selected.{selected_of, enumeration_named};
ghost use Rattle.tables.specs.Row.{length_of, selector_of};
ghost use Rattle.tables.specs.Usable.{IsUsable};

use counts::{Field, Length, Radius};
use product::inner::range::{Found, holds, locate};
use ranges::inner::total;
use ranges::inner::usable::Shell;
use rows::inner::row::Row;
use selectors::inner::Selected;

// The shell whose points are numbered, and by which enumeration: no check refuses it by the enumeration's total.
#[derive(Clone, Copy)]
pub struct Numbering {
    pub selected: Selected,
    pub length: Length,
    pub radius: Radius,
    pub ghost usable: { IsUsable length.0 radius.0 ((enumeration_named selected).total length.0 radius.0) },
}

// A shell and an enumeration, usable or not.
#[derive(Clone, Copy)]
pub struct Choice {
    pub selected: Selected,
    pub length: Length,
    pub radius: Radius,
}

// What a row says of the shell of a radius, whatever row and radius are given.
pub fn of_radius(row: &Row, radius: Radius) -> Choice
    ensures { (result.length.0 ≡ length_of row.now) × (result.radius.0 ≡ radius.0)
        × (result.selected ≡ selected_of (selector_of row.now)) }
{
    Choice {
        selected: Selected::from(rows::inner::row::selector(row)),
        length: rows::inner::row::length(row),
        radius,
    }
}

// An index that was sought and names no point: its shape is empty; or it is past the end, and there are so many.
#[derive(Clone, Copy)]
pub enum Missed {
    Empty,
    Past { total: u64 },
}

impl Numbering {
    ghost use Rattle.std.specs.Prelude.{◌≡◌, ◌<◌};
    ghost use Rattle.std.proofs.Math.ListN as listed;
    ghost use Rattle.counts.specs.declared.Field.{Field};
    ghost use Rattle.enumeration.specs.Point.{OnShell};
    ghost use Rattle.tables.specs.Row.{length_of, radius_at, shell_total};
    ghost use Rattle.numbering.specs.Numbered.{ByProduct, ByMagnitude, IsOfRow, IsShellOf, total_in, index_in, point_in, names_in, Names, IsFound, Seeks};

    // The numbering of the shell of a radius, in a row.
    pub fn in_row(row: &Row, radius: Radius) -> Numbering
        requires { IsUsable (length_of row.now) radius.0 (shell_total row.now radius.0) }
        ensures { IsOfRow result row.now radius.0 }
    {
        let choice = of_radius(row, radius);
        Numbering {
            selected: choice.selected,
            length: choice.length,
            radius: choice.radius,
        }
    }

    // The same of a radius number of the row.
    pub fn of_number(row: &Row, number: usize) -> Numbering
        requires { (number < 8)
            × IsUsable (length_of row.now) (radius_at row.now number) (shell_total row.now (radius_at row.now number)) }
        ensures { IsOfRow result row.now (radius_at row.now number) }
    {
        Numbering::in_row(row, rows::inner::row::radius(row, number))
    }

    // The shell, with the field by which its indices are counted.
    fn shell(self) -> Shell
        ensures { IsShellOf self result }
    {
        Shell {
            field: self.selected.field(),
            length: self.length,
            radius: self.radius,
        }
    }

    // How many indices there are.
    pub fn total(self) -> u64
        ensures { result ≡ total_in self }
    {
        self.shell().index_count()
    }

    // The index of a point of the shell.
    pub fn index(self, x: &[i32]) -> u64
        requires { OnShell self.length.0 self.radius.0 x.now }
        ensures { result ≡ index_in self x.now }
    {
        match self.selected {
            Selected::Product(_) => weighing::inner::index_of(self.shell(), x),
            Selected::Magnitude => magnitude::inner::weigh::index_of(self.radius, x),
        }
    }

    // Where an index stands: by pattern, shape and signs the range that holds it. The magnitude enumeration has nothing
    // to tell.
    pub fn find(self, n: u64) -> Found
        ensures { IsFound self n result }
    {
        match self.selected {
            Selected::Product(_) => locate(self.shell(), n),
            Selected::Magnitude => Found::NOWHERE,
        }
    }

    // Whether an index names a point, and where it stands.
    pub fn seek(self, n: u64) -> Result<Found, Missed>
        ensures { Seeks self n result }
    {
        match self.selected {
            Selected::Product(_) => self.seek_range(n),
            Selected::Magnitude => self.seek_below(n),
        }
    }

    // By pattern, shape and signs: what was searched to is the end, if no range holds the index.
    fn seek_range(self, n: u64) -> Result<Found, Missed>
        requires { (field : Field) × ByProduct self field }
        ensures { Seeks self n result }
    {
        let shell = self.shell();
        let found = locate(shell, n);
        if !holds(shell, n, found) {
            return Err(Missed::Past {
                total: total(shell.field, shell.length, shell.radius, found.start),
            });
        }
        if !product::inner::range::names(shell, n, found) {
            return Err(Missed::Empty);
        }
        Ok(found)
    }

    // By the magnitude enumeration: there is nothing to search.
    fn seek_below(self, n: u64) -> Result<Found, Missed>
        requires { ByMagnitude self }
        ensures { Seeks self n result }
    {
        let total = self.total();
        if total <= n {
            return Err(Missed::Past { total });
        }
        Ok(Found::NOWHERE)
    }

    // Whether an index below the total names a point; no point is built for that. Where the field is exact there is
    // nothing to search.
    pub fn names(self, n: u64) -> bool
        requires { n < total_in self }
        ensures { result ≡ names_in self n }
    {
        match self.selected {
            Selected::Product(Field::Exact) => true,
            Selected::Product(Field::Bits) => {
                let shell = self.shell();
                product::inner::range::names(shell, n, locate(shell, n))
            }
            Selected::Magnitude => true,
        }
    }

    // The point of an index that names one, by where it stands.
    pub fn write_point(self, n: u64, found: Found, out: &mut [i32])
        requires { Names self n × IsFound self n found × (listed.length out.old ≡ self.length.0) }
        ensures { out.new ≡ point_in self n }
    {
        match self.selected {
            Selected::Product(_) => {
                product::inner::read::write_point(self.shell(), n, found, out)
            }
            Selected::Magnitude => magnitude::inner::read::write_point(self.radius, n, out),
        }
    }
}
