// A file is read until the room for it is full or nothing more comes. A missing file is empty, and so is one that
// cannot be opened, which standard error tells.
ghost use Rattle.std.specs.Prelude.{◌≡◌, ◌≤◌, length, take};
ghost use Rattle.std.specs.Io.KnownBytes.{Consumes};
ghost use Rattle.tables.specs.Table.{table_room};

use super::telling::tell;
use std::fs;
use std::io::{ErrorKind, Read};
use std::rt::Files;

// Opens a file. One that is missing is no failure; any other reason is told.
pub fn open<R: Files + Eprint>(rt: &R, path: &str) -> Option<R::File> {
    match fs::open(rt, path) {
        Ok(file) => Some(file),
        Err(error) => {
            if error.kind() != ErrorKind::NotFound {
                tell(rt, path, error);
            }
            None
        }
    }
}

// Reads until the block is full or nothing more comes, however short each read is. A read that fails is told.
pub fn fill<F: Read>(rt: &impl Eprint, file: &mut F, path: &str, block: &mut [u8]) -> usize
    ensures fits { result ≤ length block.new }
    ensures part { result ≡ length (take result block.new) }
    ensures came { Consumes (F.remaining file.old) (F.remaining file.new) (take result block.new) }
{
    filling::inner::fill(file, block, |error| tell(rt, path, error))
}

// The bytes of a file, at most as many as there is room for.
pub fn read_file(rt: &(impl Files + Eprint), path: &str, room: &mut [u8]) -> usize
    ensures fits { result ≤ length room.new }
    ensures part { result ≡ length (take result room.new) }
{
    match open(rt, path) {
        Some(mut file) => fill(rt, &mut file, path, room),
        None => 0,
    }
}

// The bytes of the table, at most as many as there is room for, which is enough to tell that a table is too long.
pub fn read_table(rt: &(impl Files + Eprint), room: &mut [u8]) -> usize
    requires { length room.old ≡ table_room }
    ensures fits { result ≤ length room.new }
    ensures part { result ≡ length (take result room.new) }
{
    read_file(rt, "pairing.bin", room)
}
