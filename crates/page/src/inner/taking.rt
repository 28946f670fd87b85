// Records taken into a page.
ghost use Rattle.std.specs.Prelude.{[], ◌∷◌, ◌≡◌, ◌+◌, ◌/◌, ◌≤◌, ◌<◌};
ghost use Rattle.answers.specs.Checks.{first_of, leaves};
ghost use Rattle.rules.specs.Taking.{take_rest, take_into, refusals, take_leaves, collected};
ghost use Rattle.tables.specs.Table.{places_in};
ghost use Rattle.tables.specs.Way.{Starts};
ghost use Rattle.page.specs.Bounds.{cells_in, IsOpen, Takes, place_named, other_named, Tells};
ghost use Rattle.page.specs.Meanings.{take_meaning};

use crate::inner::opened::Opened;
use answers::Refusal;
use cells::inner::rule::arrive;
use cells::inner::spot::locate;
use pairing::inner::starts::{is_foreign, row_starts};
use records::inner::{named_in, wrong_record};

// The place that a record names; 0 for what is no record.
pub fn place_named(bytes: &[u8]) -> usize
    ensures { result ≡ place_named bytes.now }
{
    if wrong_record(bytes.len()) {
        return 0;
    }
    named_in(bytes).place
}

// Whether a record names another row than this one; what is no record names none.
pub fn names_other_row(bytes: &[u8], row: usize) -> bool
    ensures { result ≡ other_named row bytes.now }
{
    if wrong_record(bytes.len()) {
        return false;
    }
    named_in(bytes).row != row
}

// How many parts so many bytes have.
pub fn parts(bytes: usize) -> usize
    ensures { result ≡ (bytes + 7) / 8 }
{
    bytes.div_ceil(8)
}

impl Opened<'_> {
    // What take does with what was opened: the checks 4, 8, 9 and 12, and the work. `foreign` tells 9 of a record whose
    // place is in the table.
    pub fn take_record(&self, foreign: bool, page: &mut [u8], bytes: &[u8]) -> Result<(), Refusal>
        requires { IsOpen self.now page.old × Tells self.now.table.now bytes.now foreign }
        ensures { (take_meaning result
            ≡ first_of (take_rest self.now.table.now self.now.books.0 (cells_in self.now page.old) bytes.now) (0 ∷ []))
            × (cells_in self.now page.new
            ≡ leaves (take_rest self.now.table.now self.now.books.0 (cells_in self.now page.old) bytes.now)
            (take_into self.now.table.now (cells_in self.now page.old) bytes.now)
            (cells_in self.now page.old)) }
    {
        if wrong_record(bytes.len()) {
            return Err(Refusal::BufferLength);
        }
        let named = named_in(bytes);
        if self.books.0 <= named.book {
            return Err(Refusal::NoSuchPlace);
        }
        if self.places <= named.place {
            return Err(Refusal::NoSuchPlace);
        }
        if foreign {
            return Err(Refusal::ForeignRow);
        }
        let spot = locate(self.layout, self.places, self.books.0, named);
        if arrive(page, spot, bytes) {
            return Err(Refusal::BadCell);
        }
        Ok(())
    }

    // Whether a record's row is not that of its place, by where the rows begin; what is no record of a place in the
    // table has none.
    fn is_foreign_part(&self, starts: &[usize], bytes: &[u8]) -> bool
        requires { Starts self.now.table.now starts.now × (self.now.places ≡ places_in self.now.table.now) }
        ensures { Tells self.now.table.now bytes.now result }
    {
        if wrong_record(bytes.len()) {
            return false;
        }
        let named = named_in(bytes);
        if self.places <= named.place {
            return false;
        }
        is_foreign(self.table, starts, named.row, named.place)
    }

    // What take does with what was opened, by where the rows begin: 1 for a refusal, and 0 for a record that is taken.
    fn refusals_of(&self, starts: &[usize], page: &mut [u8], bytes: &[u8]) -> usize
        requires { Takes self.now page.old starts.now }
        ensures { (result ≡ refusals self.now.table.now self.now.books.0 (cells_in self.now page.old) bytes.now)
            × (cells_in self.now page.new ≡ take_leaves self.now.table.now self.now.books.0 (cells_in self.now page.old) bytes.now)
            × (result ≤ 1) }
    {
        let foreign = self.is_foreign_part(starts, bytes);
        match self.take_record(foreign, page, bytes) {
            Ok(()) => 0,
            Err(_) => 1,
        }
    }

    // What collect does with what was opened, by where the rows begin.
    fn collect_parts(&self, starts: &[usize], page: &mut [u8], bytes: &[u8]) -> usize
        requires { Takes self.now page.old starts.now }
        ensures { (result ≡ (collected self.now.table.now self.now.books.0 (cells_in self.now page.old) bytes.now).refused)
            × (cells_in self.now page.new ≡ (collected self.now.table.now self.now.books.0 (cells_in self.now page.old) bytes.now).page) }
    {
        let mut refused = 0;
        for part in bytes.chunks(8) {
            refused += self.refusals_of(starts, page, part);
        }
        refused
    }

    // The same, once it is known where the rows begin.
    pub fn collect_records(&self, page: &mut [u8], bytes: &[u8]) -> usize
        requires { IsOpen self.now page.old }
        ensures { (result ≡ (collected self.now.table.now self.now.books.0 (cells_in self.now page.old) bytes.now).refused)
            × (cells_in self.now page.new ≡ (collected self.now.table.now self.now.books.0 (cells_in self.now page.old) bytes.now).page) }
    {
        let mut starts = [0usize; 33];
        row_starts(self.table, &mut starts);
        self.collect_parts(&starts, page, bytes)
    }
}
