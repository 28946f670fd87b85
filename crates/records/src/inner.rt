// A record's fields, written into its bytes and read from them. A record is a slice, and no array of 8 bytes: the calls
// take, collect and quantize are lent bytes of any length, and refuse what is no record (wrong_record).
ghost use Rattle.std.specs.Prelude.{◌≡◌, ◌%◌, ◌^◌, ◌<◌, length};
ghost use Rattle.records.specs.Record.{record_length, record_check, field_of, record_of, radius_number_in, codeword_in};
ghost use Rattle.records.specs.Naming.{IsNamed, InField};

// What a record names: the book, the place in that book, and the row of the place. That book and place fit their field
// is asked where a record is written (InField), and not of a name that is only compared.
#[derive(Clone, Copy, PartialEq, Eq)]
pub struct Named {
    pub book: usize,
    pub place: usize,
    pub row: usize,
}

// Whether so many bytes are no record.
pub fn wrong_record(bytes: usize) -> bool
    ensures { result ≡ (record_check bytes).fails }
{
    bytes != 8
}

// The low byte of a number.
fn low_byte(n: u64) -> u8
    ensures { result ≡ n % 256 }
{
    (n % 256) as u8
}

// The place field: the book above the twelve bits of the place.
fn field(named: Named) -> u16
    requires { InField named }
    ensures { result ≡ field_of named.book named.place }
{
    (4096 * named.book + named.place) as u16
}

// The book and the place, the row, the radius number and the codeword.
#[tactic(auto, using(crate::proofs::Bytes::record_stored))]
pub fn write(named: Named, number: u64, codeword: u64, out: &mut [u8])
    requires { InField named × (length out.old ≡ record_length) }
    ensures { out.new ≡ record_of named.book named.place named.row number codeword }
{
    out[..2].copy_from_slice(&field(named).to_be_bytes());
    out[2] = low_byte(named.row as u64);
    out[3] = low_byte(number);
    out[4..].copy_from_slice(&codeword.to_be_bytes()[4..]);
}

// The book, the place and the row.
pub fn named_in(bytes: &[u8]) -> Named
    requires { length bytes.now ≡ record_length }
    ensures { IsNamed bytes.now result }
{
    let field = usize::from(u16::from_be_bytes([bytes[0], bytes[1]]));
    Named {
        book: field / 4096,
        place: field % 4096,
        row: usize::from(bytes[2]),
    }
}

// The radius number.
pub fn radius_number_in(bytes: &[u8]) -> usize
    requires { length bytes.now ≡ record_length }
    ensures { (result ≡ radius_number_in bytes.now) × (result < 256) }
{
    usize::from(bytes[3])
}

// The codeword.
pub fn codeword_in(bytes: &[u8]) -> u64
    requires { length bytes.now ≡ record_length }
    ensures { (result ≡ codeword_in bytes.now) × (result < 2 ^ 32) }
{
    u64::from(u32::from_be_bytes([bytes[4], bytes[5], bytes[6], bytes[7]]))
}
