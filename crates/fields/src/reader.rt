// A reader of a job file: the lent bytes and a place. Its functions take it apart and call the two functions on plain bytes that they stand on.
ghost use Rattle.std.specs.Prelude.{◌≡◌};
ghost use Rattle.meaning.specs.File.{field_at, field_next};

use crate::framing::{field_at, past_at};
use records::Field;

// The bytes of a job file, and how far they are read.
#[derive(Clone, Copy)]
pub struct Reader<'a> {
    pub bytes: &'a [u8],
    pub place: usize,
}

// A reader at a place.
pub fn reader_at<'a>(bytes: &'a [u8], place: usize) -> Reader<'a>
    ensures { (result.bytes ≡ bytes.entry) × (result.place ≡ place) }
{
    Reader { bytes, place }
}

// The field at the reader's place.
pub fn field<'a>(reader: Reader<'a>, tag: u8, length: usize) -> Field
    ensures { result ≡ field_at reader.entry.bytes.now reader.entry.place tag length }
{
    field_at(reader.bytes, reader.place, tag, length)
}

// The reader past that field, or, on a refusal, where it was.
pub fn past<'a>(reader: Reader<'a>, tag: u8, length: usize) -> Reader<'a>
    ensures { (result.bytes ≡ reader.entry.bytes)
        × (result.place ≡ field_next (field_at reader.entry.bytes.now reader.entry.place tag length) reader.entry.place) }
{
    let place = past_at(reader.bytes, reader.place, tag, length);
    Reader { place, ..reader }
}
