// The calls of the other crates, exported to C for the second program alone. An answer and a refusal come back in
// one number: the answer itself, or 2^40 plus the refusal's number. Point answers as the calls in `pages` do.
#![tactic(auto)]

pub mod pages;
mod said;

ghost use Rattle.std.specs.Prelude.{◌≡◌, get_or};
ghost use Rattle.shell.specs.Shell.{count_says};
ghost use Rattle.answers.specs.Checks.{number_said};
ghost use Rattle.answers.specs.Refusals.{one_number, result_meaning};
ghost use Rattle.tables.specs.Table.{check_says};
ghost use Rattle.indexing.specs.Calls.{index_says, point_says, point_leaves};
ghost use Rattle.quantizer.specs.Calls.{quantize_says, quantize_leaves};
ghost use Rattle.probe.specs.Coded.{coded, valued};

use answers::{Refusal, number, number_said};
use counts::{Length, Radius};
use enumeration::Selector;
use pairing::check;
use points::{index, point};
use quantizer::quantize;
use said::item;
use shell::count;
use tables::{Book, Books};

// The code of what a call says whose answer is one number.
#[tactic(auto, using(crate::proofs::Codes::refusal_coded), unfolding(crate::specs::Coded::coded))]
fn code(answer: Result<u64, Refusal>) -> u64
    ensures { result ≡ coded (result_meaning one_number answer) }
{
    answer.unwrap_or_else(|refusal| (1 << 40) + number(refusal) as u64)
}

// The call count.
pub fn probe_count(length: usize, radius: usize) -> u64
    ensures { result ≡ coded (count_says length radius) }
{
    code(count(Length(length), Radius(radius)))
}

// The call index.
pub fn probe_index(selector: usize, length: usize, radius: usize, x: &[i32]) -> u64
    ensures { result ≡ coded (index_says selector length radius x.now) }
{
    code(index(Selector(selector), Length(length), Radius(radius), x))
}

// The call point, by an item of what it says.
pub fn probe_point(
    selector: usize,
    length: usize,
    radius: usize,
    n: u64,
    out: &mut [i32],
    which: usize,
) -> u64
    ensures { (result ≡ get_or (point_says selector length radius n out.old) which 0)
        × (out.new ≡ point_leaves selector length radius n out.old) }
{
    item(
        point(Selector(selector), Length(length), Radius(radius), n, out),
        which,
    )
}

// The call check, by its number.
pub fn probe_check(table: &[u8]) -> u32
    ensures { result ≡ number_said (check_says table.now) }
{
    number_said(check(table))
}

// The call check, by its value.
pub fn probe_check_value(table: &[u8]) -> usize
    ensures { result ≡ valued (check_says table.now) }
{
    item(check(table), 1) as usize
}

// The call quantize, by its number.
pub fn probe_quantize(
    table: &[u8],
    books: usize,
    book: usize,
    place: usize,
    coefficients: &[f32],
    out: &mut [u8],
) -> u32
    ensures { (result ≡ number_said (quantize_says table.now books book place coefficients.now out.old))
        × (out.new ≡ quantize_leaves table.now books book place coefficients.now out.old) }
{
    number_said(quantize(table, Books(books), Book(book), place, coefficients, out))
}

// The call quantize, by its value.
pub fn probe_quantize_value(
    table: &[u8],
    books: usize,
    book: usize,
    place: usize,
    coefficients: &[f32],
    out: &mut [u8],
) -> usize
    ensures { (result ≡ valued (quantize_says table.now books book place coefficients.now out.old))
        × (out.new ≡ quantize_leaves table.now books book place coefficients.now out.old) }
{
    item(
        quantize(table, Books(books), Book(book), place, coefficients, out),
        1,
    ) as usize
}
