// The line of a refusal: its number, and the values of one that names two.
ghost use Rattle.std.specs.Prelude.{◌≤◌, length};
ghost use Rattle.answers.specs.Refusals.{meaning, printed};
ghost use Rattle.buffers.specs.Written.{Wrote};
ghost use Rattle.wording.specs.Text.{refused_text};
ghost use Rattle.reporting.specs.Calls.{line_space};

use answers::{Refusal, in_numbers};
use text::inner::lines::write_refused_line;

// It starts the buffer; where it ends.
pub fn write_refusal(refusal: Refusal, out: &mut [u8]) -> usize
    requires { line_space ≤ length out.old }
    ensures { Wrote out.old 0 (refused_text (printed (meaning refusal))) line_space result out.new }
{
    let told = in_numbers(refusal);
    let numbers = [told.0 as u64, told.1 as u64, told.2 as u64];
    if told.3 == 2 {
        return write_refused_line(&numbers, 0, out);
    }
    write_refused_line(&numbers[..1], 0, out)
}
