// The names of a card: at most eight bytes, each of which stands for itself or is written in base 16.
ghost use Rattle.std.specs.Prelude.{◌≡◌, true, ◌+◌, ◌≤◌, ◌<◌, drop, length, get_or};
ghost use Rattle.algebra.specs.Buffers.{Wrote};
ghost use Rattle.meaning.specs.Card.{is_escape, is_name, name_of};
ghost use Rattle.cards.specs.Names.{byte_end, byte_at};

use crate::hexadecimal::hex_byte;
use numbers::byte;
use printing::put_byte;

// A name has at most so many bytes.
const NAME_LENGTH: usize = 8;

// The backslash that starts a byte in base 16.
const BACKSLASH: u8 = b'\\';

// Whether an x and two digits stand from a place on.
fn is_escape(word: &[u8], at: usize) -> bool
    requires { at ≤ 65536 }
    ensures { result ≡ is_escape (drop at word.now) }
{
    byte(word, at) == b'x'
        && byte(word, at + 1).is_ascii_hexdigit()
        && byte(word, at + 2).is_ascii_hexdigit()
}

// Where the byte of a name ends that is written at a place; that place where none is.
#[tactic(auto, unfolding(crate::specs::Names::byte_end))]
fn byte_end(word: &[u8], at: usize) -> usize
    requires { length word.now ≤ 65536 }
    ensures { result ≡ byte_end word.now at }
{
    if word.len() <= at {
        return at;
    }
    if word[at] == BACKSLASH {
        if is_escape(word, at + 1) {
            return at + 4;
        }
        return at;
    }
    if word[at] <= 126 {
        return at + 1;
    }
    at
}

// Whether a word is a name of at most eight bytes.
pub(crate) fn is_name(word: &[u8]) -> bool
    requires { length word.now ≤ 65536 }
    ensures { result ≡ is_name 8 word.now }
{
    let mut at: usize = 0;
    for _ in 0..NAME_LENGTH {
        if word.len() <= at {
            return true;
        }
        let next = byte_end(word, at);
        if next == at {
            return false;
        }
        at = next;
    }
    at == word.len()
}

// The byte of a name that is written at a place; behind the end a space.
#[tactic(auto, unfolding(crate::specs::Names::byte_at))]
fn byte_at(word: &[u8], at: usize) -> u8
    requires { (length word.now ≤ 65536) × (at < length word.now → at < byte_end word.now at) }
    ensures { result ≡ byte_at word.now at }
{
    if word.len() <= at {
        return 32;
    }
    if word[at] == BACKSLASH {
        return hex_byte(word, at + 2);
    }
    word[at]
}

// The eight bytes of a name, put into lent room.
pub(crate) fn put_name(out: &mut [u8], start: usize, word: &[u8]) -> usize
    requires { (is_name 8 word.now ≡ true) × (length word.now ≤ 65536) }
    ensures { Wrote out.old start (name_of 8 word.now) out.new result }
{
    let mut place = start;
    let mut at: usize = 0;
    for _ in 0..NAME_LENGTH {
        place = put_byte(out, place, byte_at(word, at));
        at = byte_end(word, at);
    }
    place
}
