// Where everything stands in a job file, for any bytes. A size is a byte, so that no place wraps.
ghost use Rattle.std.specs.Prelude.{◌≡◌};
ghost use Rattle.meaning.specs.Design.{blocks};
ghost use Rattle.meaning.specs.File.{body_length, head_of, third_at, end_at, readings_at};

use numbers::byte;

// Where the initial blocks start: after the first field, and the start of the second.
pub(crate) const BLOCKS_AT: usize = 10;

// From the start of the third field to the restraint set, to its accepted sum, and to the readings of the fourth.
pub(crate) const TO_SET: usize = 3;

pub(crate) const TO_SUM: usize = 11;

const TO_READINGS: usize = 22;

// Where the third field starts, that of the restraint: where the blocks end.
pub(crate) fn restraint_at(bytes: &[u8]) -> usize
    ensures { result ≡ third_at bytes.now }
{
    let p = byte(bytes, 5) as usize;
    let m = byte(bytes, 6) as usize;
    BLOCKS_AT + 2 * p * m
}

// Where the readings start.
pub(crate) fn readings_at(bytes: &[u8]) -> usize
    ensures { result ≡ readings_at bytes.now }
{
    restraint_at(bytes) + TO_READINGS
}

// The byte after the fourth field.
pub(crate) fn end_at(bytes: &[u8]) -> usize
    ensures { result ≡ end_at bytes.now }
{
    readings_at(bytes) + 4 * block_count(bytes)
}

// The number of blocks, and of readings.
pub(crate) fn block_count(bytes: &[u8]) -> usize
    ensures { result ≡ blocks (head_of bytes.now) }
{
    let m = byte(bytes, 6) as usize;
    let n = byte(bytes, 3) as usize;
    m * n
}

// The length that the body of a field must have, by its tag.
pub(crate) fn body_length(bytes: &[u8], tag: u8) -> usize
    ensures { result ≡ body_length (head_of bytes.now) tag }
{
    match tag {
        1 => 4,
        2 => restraint_at(bytes) - BLOCKS_AT,
        3 => 16,
        _ => 4 * block_count(bytes),
    }
}
