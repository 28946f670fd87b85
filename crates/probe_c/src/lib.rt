// The exports for C of the calls of `probe`, by their names, for the second program alone: tests/second/probe.h
// declares them. Each is the call and nothing more, with its clauses.
#![tactic(auto)]

pub mod pages;

ghost use Rattle.std.specs.Prelude.{◌≡◌, get_or};
ghost use Rattle.shell.specs.Shell.{count_says};
ghost use Rattle.answers.specs.Checks.{number_said};
ghost use Rattle.tables.specs.Table.{check_says};
ghost use Rattle.indexing.specs.Calls.{index_says, point_says, point_leaves};
ghost use Rattle.quantizer.specs.Calls.{quantize_says, quantize_leaves};
ghost use Rattle.probe.specs.Coded.{coded, valued};

// The call count.
#[unsafe(no_mangle)]
pub extern "C" fn probe_count(length: usize, radius: usize) -> u64
    ensures { result ≡ coded (count_says length radius) }
{
    probe::probe_count(length, radius)
}

// The call index.
#[unsafe(no_mangle)]
pub extern "C" fn probe_index(selector: usize, length: usize, radius: usize, x: &[i32]) -> u64
    ensures { result ≡ coded (index_says selector length radius x.now) }
{
    probe::probe_index(selector, length, radius, x)
}

// The call point, by an item of what it says.
#[unsafe(no_mangle)]
pub extern "C" fn probe_point(
    selector: usize,
    length: usize,
    radius: usize,
    n: u64,
    out: &mut [i32],
    which: usize,
) -> u64
    ensures { (result ≡ get_or (point_says selector length radius n out.old) which 0)
        × (out.new ≡ point_leaves selector length radius n out.old) }
{
    probe::probe_point(selector, length, radius, n, out, which)
}

// The call check, by its number.
#[unsafe(no_mangle)]
pub extern "C" fn probe_check(table: &[u8]) -> u32
    ensures { result ≡ number_said (check_says table.now) }
{
    probe::probe_check(table)
}

// The call check, by its value.
#[unsafe(no_mangle)]
pub extern "C" fn probe_check_value(table: &[u8]) -> usize
    ensures { result ≡ valued (check_says table.now) }
{
    probe::probe_check_value(table)
}

// The call quantize, by its number.
#[unsafe(no_mangle)]
pub extern "C" fn probe_quantize(
    table: &[u8],
    books: usize,
    book: usize,
    place: usize,
    coefficients: &[f32],
    out: &mut [u8],
) -> u32
    ensures { (result ≡ number_said (quantize_says table.now books book place coefficients.now out.old))
        × (out.new ≡ quantize_leaves table.now books book place coefficients.now out.old) }
{
    probe::probe_quantize(table, books, book, place, coefficients, out)
}

// The call quantize, by its value.
#[unsafe(no_mangle)]
pub extern "C" fn probe_quantize_value(
    table: &[u8],
    books: usize,
    book: usize,
    place: usize,
    coefficients: &[f32],
    out: &mut [u8],
) -> usize
    ensures { (result ≡ valued (quantize_says table.now books book place coefficients.now out.old))
        × (out.new ≡ quantize_leaves table.now books book place coefficients.now out.old) }
{
    probe::probe_quantize_value(table, books, book, place, coefficients, out)
}
