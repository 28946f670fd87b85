// The file of the records.
use files::inner::telling::tell;
use std::fs;
use std::io::Write;
use std::rt::Files;

// Writes all records of a page. Where they cannot be written whole, standard error tells so, and the file is removed.
pub fn write_records(rt: &(impl Files + Eprint), records: &[u8]) {
    let path = "records.bin";
    match fs::create(rt, path) {
        Ok(mut file) => {
            if let Err(error) = file.write_all(records) {
                tell(rt, path, error);
                let _ = fs::remove_file(rt, path);
            }
        }
        Err(error) => tell(rt, path, error),
    }
}
