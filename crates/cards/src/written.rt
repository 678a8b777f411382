// The bytes of the file that a word of a card gives, put into lent room from a place on. Each function answers the place after what it put.
ghost use Rattle.std.specs.Prelude.{not, ◌≤◌, length};
ghost use Rattle.algebra.specs.Buffers.{Wrote};
ghost use Rattle.meaning.specs.Card.{object_bytes, reading_bytes, after_bytes, is_name, name_of, field_bytes, taken, given_bytes};
ghost use Rattle.cards.specs.Putting.{Puts};
ghost use Rattle.cards.specs.Sizes.{Small, Kept};

use crate::hexadecimal::{body_length, is_body, put_body};
use crate::names::{is_name, put_name};
use crate::numerals::{is_int32, object_of};
use printing::{bits, put_byte, put_bytes};
use records::Card;
use sheets::{same, signed};
use writing::put_start;

// An object, one byte.
#[tactic(auto, unfolding(meaning::specs::Card::object_bytes))]
fn put_object(out: &mut [u8], at: usize, card: Card, word: &[u8]) -> usize
    ensures { Wrote out.old at (object_bytes card word.now) out.new result }
{
    match object_of(word) {
        Some(object) => put_byte(out, at, object as u8),
        None => at,
    }
}

// A reading, four bytes.
#[tactic(auto, unfolding(meaning::specs::Card::reading_bytes, meaning::specs::Card::is_reading))]
fn put_reading(out: &mut [u8], at: usize, card: Card, word: &[u8]) -> usize
    ensures { Wrote out.old at (reading_bytes card word.now) out.new result }
{
    match signed(word) {
        Some(number) if is_int32(number) => put_bytes(out, at, 4, bits(number)),
        _ => at,
    }
}

// The start of the names' field, or a reading.
#[tactic(auto, unfolding(meaning::specs::Card::after_bytes, meaning::specs::Text::ascii))]
fn put_after(out: &mut [u8], at: usize, card: Card, word: &[u8]) -> usize
    requires { Small card }
    ensures { Wrote out.old at (after_bytes card word.now) out.new result }
{
    if same(word, b"names") {
        let head = card.head;
        return put_start(out, at, 128, 8 * (head.n + head.flag % 2));
    }
    put_reading(out, at, card, word)
}

// A name, eight bytes. Behind a word that is none they are passed over: the card ends with it.
fn put_named(out: &mut [u8], at: usize, word: &[u8]) -> usize
    requires { (length word.now ≤ 65536) × (at ≤ 4294967296) }
    ensures { Puts (is_name 8 word.now) out.old at (name_of 8 word.now) out.new result }
{
    if is_name(word) {
        return put_name(out, at, word);
    }
    at + 8
}

// Another optional field, whose tag was counted.
#[tactic(auto, unfolding(meaning::specs::Card::field_bytes))]
fn put_field(out: &mut [u8], at: usize, card: Card, word: &[u8]) -> usize
    requires { card.count ≤ 255 }
    ensures { Wrote out.old at (field_bytes card word.now) out.new result }
{
    if is_body(word) {
        let start = put_start(out, at, card.count as u8, body_length(word));
        return put_body(out, start, word);
    }
    at
}

// What a word gives, behind what those before it gave.
pub(crate) fn put_word(out: &mut [u8], at: usize, card: Card, word: &[u8], k: usize) -> usize
    requires { (Kept k card) × (k ≤ 65536) × (length word.now ≤ 65536) × (at ≤ 4294967296) }
    ensures { Puts (not (taken card word.now).bad) out.old at (given_bytes card word.now) out.new result }
{
    match card.wants {
        6..=10 => put_object(out, at, card, word),
        16 => put_reading(out, at, card, word),
        17 => put_after(out, at, card, word),
        18 => put_named(out, at, word),
        21 => put_field(out, at, card, word),
        _ => at,
    }
}
