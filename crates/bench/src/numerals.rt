// Numbers that arguments are.
use crate::failures::Failure;
use sheets::{is_decimal, signed};

// The number that a word is. One that does not fit 64 bits is out of the range of every call, as the largest that does.
pub(crate) fn number_of(word: &[u8]) -> Result<i64, Failure<'_>> {
    match signed(word) {
        Some(number) => Ok(number),
        None if is_decimal(word) => Ok(i64::MAX),
        None => Err(Failure::NoNumber(word)),
    }
}
