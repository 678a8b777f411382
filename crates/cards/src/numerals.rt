// The numbers on a card: an object of a block, an object of the restraint, a reading.
ghost use Rattle.std.specs.Prelude.{◌≡◌};
ghost use Rattle.meaning.specs.Card.{object_of, member_of, is_int32, is_reading};

use records::Head;
use sheets::{number, same, signed};

// An object of a block as its byte, 255 for the fixed one.
#[tactic(auto, unfolding(meaning::specs::Card::object_of, meaning::specs::Text::ascii))]
pub(crate) fn object_of(word: &[u8]) -> Option<u64>
    ensures { result ≡ object_of word.now }
{
    if same(word, b"inf") {
        return Some(255);
    }
    number(word, 254)
}

// An object of the restraint by its number below 64.
#[tactic(auto, unfolding(meaning::specs::Card::member_of, meaning::specs::Text::ascii))]
pub(crate) fn member_of(head: Head, word: &[u8]) -> Option<u64>
    ensures { result ≡ member_of head word.now }
{
    if head.flag % 2 == 1 && head.n <= 63 && same(word, b"inf") {
        return Some(head.n as u64);
    }
    number(word, 63)
}

// Whether a word is a number of 32 bits with its sign.
#[tactic(auto, unfolding(meaning::specs::Card::is_reading))]
pub(crate) fn is_reading(word: &[u8]) -> bool
    ensures { result ≡ is_reading word.now }
{
    signed(word).is_some_and(|number| is_int32(number))
}

// Whether a number has at most 32 bits with its sign.
pub(crate) fn is_int32(number: i64) -> bool
    ensures { result ≡ is_int32 number }
{
    i32::try_from(number).is_ok()
}
