// What is printed, and what ends a program before its work is done.
use super::telling::tell;
use answers::Refusal;
use report::refused_line;
use std::io::Error;

// What ends a program: a refusal, or that standard output takes no more.
#[derive(Drop)]
pub enum End {
    Refused(Refusal),
    Unwritten(Error),
}

impl From<Refusal> for End {
    fn from(refusal: Refusal) -> End {
        End::Refused(refusal)
    }
}

impl From<Error> for End {
    fn from(error: Error) -> End {
        End::Unwritten(error)
    }
}

// Prints the refusal that ended a program, or tells why standard output takes no more.
pub fn print_end(rt: &(impl Print + Eprint), end: End) {
    match end {
        End::Refused(refusal) => print_refused(rt, refusal),
        End::Unwritten(error) => tell(rt, "standard output", error),
    }
}

// Prints a refusal. Where it cannot be written, standard error tells so.
pub fn print_refused(rt: &(impl Print + Eprint), refusal: Refusal) {
    // A room of a fixed size: the programs take no memory.
    let mut out = [0u8; 256];
    if let Ok(size) = refused_line(refusal, &mut out) {
        if let Err(error) = rt.write_all(&out[..size]) {
            tell(rt, "standard output", error);
        }
    }
}
