// A usable shell whose shapes have a field: its ranges, and how many indices it has.
ghost use Rattle.std.specs.Prelude.{◌≡◌};
ghost use Rattle.counts.specs.Counts.{range_start};
ghost use Rattle.counts.specs.Fields.{size_of, field_total};
ghost use Rattle.tables.specs.Usable.{IsUsable};

use crate::inner::{most_nonzero, range_size, total};
use counts::{Field, Length, Radius};

// No check refuses the shell by the total that this field makes.
#[derive(Clone, Copy)]
pub struct Shell {
    pub field: Field,
    pub length: Length,
    pub radius: Radius,
    pub ghost usable: { IsUsable length.0 radius.0 (field_total (size_of field) length.0 radius.0) },
}

impl Shell {
    // The start of the range for s: the sizes of the ranges for s+1 to m, which come before it.
    pub fn range_start(self, s: usize) -> u64
        ensures { result ≡ range_start (size_of self.field) s self.length.0 self.radius.0 }
    {
        let mut start = 0;
        for i in (s..most_nonzero(self.length, self.radius)).rev() {
            start += range_size(self.field, i + 1, self.length, self.radius);
        }
        start
    }

    // How many indices there are, by its ranges (eq. 14 and 28).
    pub fn index_count(self) -> u64
        ensures { result ≡ field_total (size_of self.field) self.length.0 self.radius.0 }
    {
        total(self.field, self.length, self.radius, self.range_start(0))
    }
}
