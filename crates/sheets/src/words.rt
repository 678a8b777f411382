// The words of a line: whether one is a certain word, and which number it is.
ghost use Rattle.std.specs.Prelude.{◌≡◌};
ghost use Rattle.meaning.specs.SheetText.{same, signed_of, word_of, word_number};

use crate::numerals::{number, signed};
use crate::pieces::{piece, same};

// Whether word k is that one.
pub(crate) fn word_is(line: &[u8], k: usize, text: &[u8]) -> bool
    ensures { result ≡ same (word_of k line.now) text.now }
{
    same(piece(line, k, b' '), text)
}

// Word k as a number of 64 bits.
pub(crate) fn word_number(line: &[u8], k: usize) -> Option<u64>
    ensures { result ≡ word_number k line.now }
{
    number(piece(line, k, b' '), u64::MAX)
}

// Word k as a number of 64 bits with a sign.
pub(crate) fn word_signed(line: &[u8], k: usize) -> Option<i64>
    ensures { result ≡ signed_of (word_of k line.now) }
{
    signed(piece(line, k, b' '))
}
