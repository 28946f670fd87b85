// The refusals of docs/RULES.md, "Refusal numbers": one enum for every call. A case carries what the table says
// that the refusal names; `meaning` in specs/Refusals.antt gives each case the number and the values of the rules.
#![tactic(auto)]

ghost use Rattle.std.specs.Prelude.{◌≡◌, List, ℕ};
ghost use Rattle.answers.specs.Checks.{number_said};
ghost use Rattle.answers.specs.Refusals.{number_of, first_named, second_named, named_by, result_meaning};

#[derive(Clone, Copy, Debug, PartialEq, Eq)]
pub enum Refusal {
    // 1: length outside 1 to 16
    LengthOutside,
    // 2: radius above 32
    RadiusAbove,
    // 3: a total above 2^32
    ShellTooLarge,
    // 4: a lent buffer has the wrong length
    BufferLength,
    // 5: magnitudes don't sum to k
    MagnitudeSum,
    // 6: index past the end, with its distance
    IndexPastEnd { distance: u64 },
    // 7: bad pairing table, with the first bad row
    BadTable { row: usize },
    // 8: place not in the table, or book not below the number of books
    NoSuchPlace,
    // 9: row byte not the row of the record's place
    ForeignRow,
    // 11: unusable coefficient, with the first coordinate at fault
    UnusableCoefficient { coordinate: usize },
    // 11 as send gives it, with the lowest place at fault, and its first coordinate at fault
    UnusableCoefficientAt { place: usize, coordinate: usize },
    // 12: state byte above 2, or a held record of another book, place or row, at the place that the call looks at
    BadCell,
    // 12 as the tally and lines give it, with the lowest such place
    BadCellAt { place: usize },
    // 13: coordinate number l or more
    NoSuchCoordinate,
    // 15: an empty shape, the index names no point
    EmptyShape,
    // 16: mode above 1
    NoSuchMode,
    // 17: number of books outside 1 to 16
    BooksOutside,
    // 20: enumeration selector above 2
    NoSuchEnumeration,
}

// A refusal in numbers: its own; those of the distance, row, coordinate or place that it names, at most two, with 0
// where it names none; and how many it names.
#[derive(Clone, Copy)]
pub struct Numbers(pub u32, pub usize, pub usize, pub usize);

pub fn in_numbers(refusal: Refusal) -> Numbers
    ensures { (result.0 ≡ number_of refusal) × (result.1 ≡ first_named refusal) × (result.2 ≡ second_named refusal) × (result.3 ≡ named_by refusal) }
{
    match refusal {
        Refusal::LengthOutside => Numbers(1, 0, 0, 0),
        Refusal::RadiusAbove => Numbers(2, 0, 0, 0),
        Refusal::ShellTooLarge => Numbers(3, 0, 0, 0),
        Refusal::BufferLength => Numbers(4, 0, 0, 0),
        Refusal::MagnitudeSum => Numbers(5, 0, 0, 0),
        Refusal::IndexPastEnd { distance } => Numbers(6, distance as usize, 0, 1),
        Refusal::BadTable { row } => Numbers(7, row, 0, 1),
        Refusal::NoSuchPlace => Numbers(8, 0, 0, 0),
        Refusal::ForeignRow => Numbers(9, 0, 0, 0),
        Refusal::UnusableCoefficient { coordinate } => Numbers(11, coordinate, 0, 1),
        Refusal::UnusableCoefficientAt { place, coordinate } => Numbers(11, place, coordinate, 2),
        Refusal::BadCell => Numbers(12, 0, 0, 0),
        Refusal::BadCellAt { place } => Numbers(12, place, 0, 1),
        Refusal::NoSuchCoordinate => Numbers(13, 0, 0, 0),
        Refusal::EmptyShape => Numbers(15, 0, 0, 0),
        Refusal::NoSuchMode => Numbers(16, 0, 0, 0),
        Refusal::BooksOutside => Numbers(17, 0, 0, 0),
        Refusal::NoSuchEnumeration => Numbers(20, 0, 0, 0),
    }
}

// The number of a refusal, as C and the listing give it.
pub fn number(refusal: Refusal) -> u32
    ensures { result ≡ number_of refusal }
{
    in_numbers(refusal).0
}

// The number that an answer says first, whatever else is told: 0, or its refusal's.
pub fn number_said<T: Copy>(answer: Result<T, Refusal>) -> u32
    ensures { (tells : T → List ℕ) → result ≡ number_said (result_meaning tells answer) }
{
    match answer {
        Ok(_) => 0,
        Err(refusal) => number(refusal),
    }
}
