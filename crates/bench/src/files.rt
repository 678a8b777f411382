// Files that arguments name, as far as they are read, and which edition a job is of.
use crate::failures::Failure;
use crate::system::{open, read_at_most};
use fields::held;
use records::Held;

// No file of the first edition has more bytes, and none of the second, of which one byte more is read.
const FIRST_LIMIT: usize = 8192;

const SECOND_LIMIT: usize = 16384;

// A card and a sheet have no more bytes; of them too one byte more is read.
pub(crate) const TEXT_LIMIT: usize = 65536;

// The edition of a job.
#[derive(Clone, Copy, PartialEq, Eq)]
pub enum Edition {
    First,
    Second,
}

// The first byte of a job says which it is of.
pub(crate) fn edition_of(file: &[u8]) -> Edition {
    match file.first() {
        Some(0x10) => Edition::Second,
        _ => Edition::First,
    }
}

// The first bytes of the file of a name, at most so many, or of standard input for `-`.
fn read_file<'a>(rt: &HostRuntime, name: &'a [u8], most: usize) -> Result<Vec<u8>, Failure<'a>> {
    if matches!(name, b"-") {
        return Ok(read_at_most(rt.alloc(), rt.stdin(), most)?);
    }
    match open(rt, name) {
        Ok(file) => Ok(read_at_most(rt.alloc(), file, most)?),
        Err(error) => Err(Failure::Unopened(name, error)),
    }
}

// What is looked at of a job of either edition.
pub(crate) fn read_job<'a>(rt: &HostRuntime, name: &'a [u8]) -> Result<Vec<u8>, Failure<'a>> {
    let mut file = read_file(rt, name, SECOND_LIMIT + 1)?;
    if edition_of(&file) == Edition::First {
        file.truncate(FIRST_LIMIT);
    }
    Ok(file)
}

// What is looked at of a job where each is one of the first edition.
pub(crate) fn read_first_job<'a>(rt: &HostRuntime, name: &'a [u8]) -> Result<Vec<u8>, Failure<'a>> {
    read_file(rt, name, FIRST_LIMIT)
}

// A card or a sheet, and a byte more of one that is too long.
pub(crate) fn read_text<'a>(rt: &HostRuntime, name: &'a [u8]) -> Result<Vec<u8>, Failure<'a>> {
    read_file(rt, name, TEXT_LIMIT + 1)
}

// The four fields of a job, and what may follow them: in the second edition they stand behind the edition field.
pub(crate) fn fields_of(file: &[u8]) -> &[u8] {
    match edition_of(file) {
        Edition::First => file,
        Edition::Second => file.get(4..).unwrap_or(b""),
    }
}

// The block list that four fields hold.
pub(crate) fn blocks_of(fields: &[u8]) -> &[u8] {
    let Held {
        blocks_at,
        restraint_at,
        ..
    } = held(fields);
    fields.get(blocks_at..restraint_at).unwrap_or(b"")
}
