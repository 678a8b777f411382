// Bytes in base 16, two digits each, as a card writes them: the bytes of an optional field, its tag, and those of a name that do not stand for themselves.
ghost use Rattle.std.specs.Prelude.{◌≡◌, true, ◌&&◌, ◌+◌, ◌<◌, ◌≤◌, ◌/◌, ◌%◌, get_or, drop, length, eqb, leb};
ghost use Rattle.algebra.specs.Buffers.{Wrote};
ghost use Rattle.meaning.specs.Card.{is_hex, hex_digit, hex_byte, all_hex, hex_bytes, is_body, body_of, is_tag};

use printing::put_byte;
use sheets::same;

// What a digit is worth.
#[tactic(auto, using(crate::proofs::hexadecimal::Digits::hex_least, crate::proofs::hexadecimal::Digits::hex_capital, crate::proofs::hexadecimal::Digits::hex_small), unfolding(meaning::specs::Card::hex_digit))]
fn hex_digit(byte: u8) -> u8
    requires { is_hex byte ≡ true }
    ensures { result ≡ hex_digit byte }
{
    match byte {
        ..=b'9' => byte - b'0',
        ..=b'F' => byte - b'A' + 10,
        _ => byte - b'a' + 10,
    }
}

// The byte that the two digits from a place on write.
pub(crate) fn hex_byte(word: &[u8], at: usize) -> u8
    requires { (at + 1 < length word.now) × (is_hex (get_or word.now at 0) ≡ true) × (is_hex (get_or word.now (at + 1) 0) ≡ true) }
    ensures { result ≡ hex_byte (drop at word.now) }
{
    let high = hex_digit(word[at]);
    let low = hex_digit(word[at + 1]);
    16 * high + low
}

// Whether every byte of a word is a digit.
pub(crate) fn all_hex(word: &[u8]) -> bool
    ensures { result ≡ all_hex word.now }
{
    word.iter().all(|digit| digit.is_ascii_hexdigit())
}

// Whether a word is the body of an optional field: two digits a byte, or - for no bytes.
#[tactic(auto, unfolding(meaning::specs::Card::is_body, meaning::specs::Text::ascii))]
pub(crate) fn is_body(word: &[u8]) -> bool
    ensures { result ≡ is_body word.now }
{
    same(word, b"-") || word.len() % 2 == 0 && all_hex(word)
}

// Whether a word is a tag above another one.
#[tactic(auto, unfolding(meaning::specs::Card::is_tag))]
pub(crate) fn is_tag(least: usize, word: &[u8]) -> bool
    ensures { result ≡ is_tag least word.now }
{
    word.len() == 2 && all_hex(word) && least < usize::from(hex_byte(word, 0))
}

// The bytes that digits write, put into lent room.
fn put_hex(out: &mut [u8], at: usize, word: &[u8]) -> usize
    requires { (all_hex word.now ≡ true) × (length word.now % 2 ≡ 0) }
    ensures { Wrote out.old at (hex_bytes (length word.now / 2) word.now) out.new result }
{
    let mut place = at;
    for digits in word.chunks_exact(2) {
        place = put_byte(out, place, hex_byte(digits, 0));
    }
    place
}

// How many bytes the body of an optional field has.
#[tactic(auto, unfolding(meaning::specs::Card::body_of, meaning::specs::Text::ascii))]
pub(crate) fn body_length(word: &[u8]) -> usize
    requires { is_body word.now ≡ true }
    ensures { result ≡ length (body_of word.now) }
{
    if same(word, b"-") {
        return 0;
    }
    word.len() / 2
}

// The body of an optional field, put into lent room.
#[tactic(auto, unfolding(meaning::specs::Card::body_of, meaning::specs::Text::ascii))]
pub(crate) fn put_body(out: &mut [u8], at: usize, word: &[u8]) -> usize
    requires { is_body word.now ≡ true }
    ensures { Wrote out.old at (body_of word.now) out.new result }
{
    if same(word, b"-") {
        return at;
    }
    put_hex(out, at, word)
}
