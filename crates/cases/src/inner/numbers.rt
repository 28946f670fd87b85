// The numbers of a line, taken one after the other. Where there are no more, 0 is taken.
ghost use Rattle.std.specs.Prelude.{◌≡◌, ◌%◌, ◌^◌, ◌<◌, drop, length, slice_index, MatchOption};
ghost use Rattle.cases.specs.Made.{AreMade, AreSized};

#[derive(Clone, Copy)]
pub struct Numbers<'a> {
    pub rest: &'a [u64],
}

impl<'a> Numbers<'a> {
    pub fn of(line: &'a [u64]) -> Numbers<'a>
        ensures { result.rest.now ≡ line.now }
    {
        Numbers { rest: line }
    }

    pub fn next(&mut self) -> u64
        ensures { (result ≡ slice_index self.old.rest.now 0) × (self.new.rest.now ≡ drop 1 self.old.rest.now) }
    {
        match self.rest.split_first() {
            Some((n, rest)) => {
                self.rest = rest;
                *n
            }
            None => 0,
        }
    }

    // Makes each thing of a number.
    pub fn fill<T: Copy, F: Fn(u64) -> T>(&mut self, things: &mut [T], made: F)
        requires { F.IsAlwaysCallable made }
        ensures each { AreMade (F.post made) self.old.rest.now things.new }
        ensures left { self.new.rest.now ≡ drop (length things.new) self.old.rest.now }
    {
        for thing in things.iter_mut() {
            *thing = made(self.next());
        }
    }

    // A size, and then so many things, each made of a number, in the room that is lent; none where it is too small.
    pub fn sized<'b, T: Copy, F: Fn(u64) -> T>(
        &mut self,
        room: &'b mut [T],
        made: F,
    ) -> Option<&'b mut [T]>
        requires { F.IsAlwaysCallable made }
        ensures { let size = slice_index self.old.rest.now 0 in let numbers = drop 1 self.old.rest.now in
            MatchOption result ((length room.old < size) × (self.new.rest.now ≡ numbers))
            (λ things. AreSized (F.post made) (length room.old) size numbers things.now self.new.rest.now) }
    {
        let size = self.next() as usize;
        let things = room.get_mut(..size)?;
        self.fill(things, made);
        Some(things)
    }
}

// The low 8 bits as a byte.
pub fn low_byte(n: u64) -> u8
    ensures { result ≡ n % 256 }
{
    (n % 256) as u8
}

// The low 32 bits as a word.
pub fn low_word(n: u64) -> u32
    ensures { result ≡ n % 2 ^ 32 }
{
    (n % 4294967296) as u32
}
