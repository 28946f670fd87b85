// What a call says is a list: 0 and its values, or a refusal's number and what it names. `which` picks an item of it,
// since C is given one number at a time; an item past the end is 0.
ghost use Rattle.std.specs.Prelude.{◌≡◌, ℕ, List, get_or};
ghost use Rattle.answers.specs.Refusals.{meaning, one_number, no_values, result_meaning};
ghost use Rattle.report.specs.Meanings.{listed_tells};
ghost use Rattle.page.specs.Meanings.{answer_tells, coefficient_values, counts_meaning};
ghost use Rattle.probe.specs.Coded.{positive_zero};

use answers::{Numbers, Refusal, in_numbers};
use page::{Answer, Counts};
use report::Listed;
use rules::Reason;

// An item of a list of numbers.
fn item_of(numbers: &[u64], which: usize) -> u64
    ensures { result ≡ get_or numbers.now which 0 }
{
    numbers.get(which).copied().unwrap_or(0)
}

// An answer that tells numbers.
pub trait Tells {
    ghost tells: { Self → List ℕ };

    // An item of what it tells.
    fn told(self, which: usize) -> u64
        ensures { result ≡ get_or (tells self) which 0 };
}

impl Tells for () {
    ghost tells = { no_values };

    fn told(self, _: usize) -> u64 {
        0
    }
}

impl Tells for usize {
    ghost tells = { one_number };

    fn told(self, which: usize) -> u64 {
        item_of(&[self as u64], which)
    }
}

impl<T: Copy> Tells for Answer<T> {
    ghost tells = { answer_tells };

    fn told(self, which: usize) -> u64 {
        match self {
            Answer::Sound(_) => item_of(&[0, 0], which),
            Answer::Mended { distance, .. } => item_of(&[1, 0, distance], which),
            Answer::Missing => item_of(&[2, 0], which),
            Answer::Contested => item_of(&[3, 0], which),
            Answer::Unreadable(Reason::NoSuchRadius) => item_of(&[4, 10], which),
            Answer::Unreadable(Reason::TooWide) => item_of(&[4, 14], which),
            Answer::Unreadable(Reason::PastEnd { distance }) => item_of(&[4, 6, distance], which),
            Answer::Unreadable(Reason::EmptyShape) => item_of(&[4, 15], which),
        }
    }
}

impl Tells for Counts {
    ghost tells = { counts_meaning };

    fn told(self, which: usize) -> u64 {
        let counts = [
            self.sound as u64,
            self.mended as u64,
            self.missing as u64,
            self.contested as u64,
            self.unreadable as u64,
        ];
        item_of(&counts, which)
    }
}

impl Tells for Listed {
    ghost tells = { listed_tells };

    fn told(self, which: usize) -> u64 {
        item_of(&[self.to as u64, self.size as u64], which)
    }
}

// An item of a refusal.
fn refused(refusal: Refusal, which: usize) -> u64
    ensures { result ≡ get_or (meaning refusal) which 0 }
{
    let Numbers(number, first, second, _) = in_numbers(refusal);
    item_of(&[number as u64, first as u64, second as u64], which)
}

// An item of what a call says: 0 and what its answer tells, or a refusal.
pub fn item<T: Tells + Copy>(answer: Result<T, Refusal>, which: usize) -> u64
    ensures { result ≡ get_or (result_meaning T.tells answer) which 0 }
{
    match answer {
        Ok(_) if which == 0 => 0,
        Ok(answer) => answer.told(which - 1),
        Err(refusal) => refused(refusal, which),
    }
}

// The value that the call coefficient carries, or positive zero.
pub fn coefficient_value(answer: Result<Answer<f32>, Refusal>) -> f32
    ensures { result ≡ get_or (coefficient_values answer) 0 positive_zero }
{
    match answer {
        Ok(Answer::Sound(value) | Answer::Mended { value, .. }) => value,
        _ => 0.0,
    }
}
