// What failed, told on standard error.
use std::io::Error;

// Tells what could not be opened, read or written, and why. Where this cannot be written either, nothing is told.
pub fn tell(rt: &impl Eprint, what: &str, error: Error) {
    let _ = eprintln!(rt; "{what}: {error}");
}
