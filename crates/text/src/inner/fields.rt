// The fields of a line: decimal numbers, integers, words, each with a space before it, and the newline.
ghost use Rattle.std.specs.Prelude.{◌*◌, ◌+◌, ◌≤◌, ◌∷◌, [], ◌++◌, map, length};
ghost use Rattle.buffers.specs.Written.{Wrote};
ghost use Rattle.text.specs.Line.{HasRoom, Writes};
ghost use Rattle.wording.specs.Text.{ascii, decimal, integer, spaced, word};

use coordinates::inner::magnitude;

// The decimal digits of a number from `at` on, those of the tenth and the last; where they end. It calls itself, and
// with a line passed on from call to call it is slower.
fn write_digits(n: u64, at: usize, out: &mut [u8]) -> usize
    requires { at + 20 ≤ length out.old }
    ensures { Wrote out.old at (decimal n) 20 result out.new }
{
    if n < 10 {
        out[at] = b'0' + n as u8;
        return at + 1;
    }
    let last = write_digits(n / 10, at, out);
    out[last] = b'0' + (n % 10) as u8;
    last + 1
}

// A line that is being written: the lent buffer, and where the text in it ends.
#[derive(Drop)]
pub struct Line<'a> {
    pub out: &'a mut [u8],
    pub end: usize,
}

impl Line<'_> {
    // One byte.
    pub fn write_byte(&mut self, byte: u8)
        requires { HasRoom self.old 1 }
        ensures { Writes self.old self.new (byte ∷ []) 1 }
    {
        self.out[self.end] = byte;
        self.end += 1;
    }

    // The decimal digits of a number; the one digit that most coordinates have takes no call.
    pub fn write_decimal(&mut self, n: u64)
        requires { HasRoom self.old 20 }
        ensures { Writes self.old self.new (decimal n) 20 }
    {
        if n < 10 {
            self.write_byte(b'0' + n as u8);
        } else {
            self.end = write_digits(n, self.end, self.out);
        }
    }

    // A space and a decimal number.
    pub fn write_number(&mut self, n: u64)
        requires { HasRoom self.old 21 }
        ensures { Writes self.old self.new (ascii " " ++ decimal n) 21 }
    {
        self.write_byte(b' ');
        self.write_decimal(n);
    }

    // A space and an integer, with its minus sign where it is negative. It asks for the room of any number, and takes
    // less.
    pub fn write_integer(&mut self, x: i32)
        requires { HasRoom self.old 22 }
        ensures { Writes self.old self.new (ascii " " ++ integer x) 12 }
    {
        self.write_byte(b' ');
        if x < 0 {
            self.write_byte(b'-');
        }
        self.write_decimal(magnitude(x));
    }

    // A text as it stands.
    pub fn write_text(&mut self, text: &[u8])
        requires { HasRoom self.old (length text.now) }
        ensures { Writes self.old self.new text.now (length text.now) }
    {
        let end = self.end + text.len();
        self.out[self.end..end].copy_from_slice(text);
        self.end = end;
    }

    // A space and the word of an answer, by its number.
    pub fn write_word(&mut self, answer: usize)
        requires { HasRoom self.old 11 }
        ensures { Writes self.old self.new (ascii " " ++ word answer) 11 }
    {
        self.write_byte(b' ');
        match answer {
            0 => self.write_text(b"sound"),
            1 => self.write_text(b"mended"),
            2 => self.write_text(b"missing"),
            3 => self.write_text(b"contested"),
            _ => self.write_text(b"unreadable"),
        }
    }

    // Integers, each with a space before it.
    pub fn write_integers(&mut self, xs: &[i32])
        requires { HasRoom self.old (12 * length xs.now + 10) }
        ensures { Writes self.old self.new (spaced (map integer xs.now)) (12 * length xs.now) }
    {
        for x in xs {
            self.write_integer(*x);
        }
    }

    // Decimal numbers, each with a space before it. One function for both kinds would need a trait with two impls: more
    // than this loop has.
    pub fn write_numbers(&mut self, ns: &[u64])
        requires { HasRoom self.old (21 * length ns.now) }
        ensures { Writes self.old self.new (spaced (map decimal ns.now)) (21 * length ns.now) }
    {
        for n in ns {
            self.write_number(*n);
        }
    }
}
