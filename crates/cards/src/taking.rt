// A word of a card in its turn: what it is to be, and the card with it. One function for each thing that may be wanted.
ghost use Rattle.std.specs.Prelude.{◌≡◌, ◌+◌, ◌≤◌, ◌<◌, length};
ghost use Rattle.meaning.specs.Card.{next, expect, take_kind, take_size, take_fixed, take_first, take_more, take_object, take_block, take_member, take_standard, take_sum, take_reading, take_after, take_name, take_tag, take_bytes, taken, counting, sizing, with_m};
ghost use Rattle.meaning.specs.Text.{ascii};
ghost use Rattle.cards.specs.Sizes.{Small};

use crate::hexadecimal::{hex_byte, is_body, is_tag};
use crate::moves::{
    counting, fail, next, sizing, standing, summing, weighed, with_flag, with_m, with_n,
    with_object, with_p,
};
use crate::names::is_name;
use crate::numerals::{is_reading, member_of, object_of};
use records::Card;
use sheets::{number, same, signed};
use words::holds;

// A word that is to be this one.
fn expect(card: Card, word: &[u8], text: &[u8], after: Card) -> Card
    ensures { result ≡ expect card word.now text.now after }
{
    if same(word, text) {
        return after;
    }
    fail(card)
}

// residues or field.
#[tactic(auto, unfolding(meaning::specs::Card::take_kind, meaning::specs::Text::ascii))]
fn take_kind(card: Card, word: &[u8]) -> Card
    ensures { result ≡ take_kind card word.now }
{
    if same(word, b"residues") {
        return next(2, card);
    }
    if same(word, b"field") {
        return sizing(2, with_flag(2, card.head), card);
    }
    fail(card)
}

// The number of elements.
#[tactic(auto, unfolding(meaning::specs::Card::take_size))]
fn take_size(card: Card, word: &[u8]) -> Card
    ensures { result ≡ take_size card word.now }
{
    let Some(elements) = number(word, 255) else {
        return fail(card);
    };
    sizing(3, with_n(elements as usize, card.head), card)
}

// From here on `Small` stands beside each card, and `Counted` holds it in filing alone: a word makes a bare card again, so a clause would become a `let`.

// yes or no.
#[tactic(auto, unfolding(meaning::specs::Card::take_fixed, meaning::specs::Text::ascii))]
fn take_fixed(card: Card, word: &[u8]) -> Card
    requires { Small card }
    ensures { result ≡ take_fixed card word.now }
{
    if same(word, b"no") {
        return next(5, card);
    }
    if same(word, b"yes") {
        return sizing(5, with_flag(card.head.flag + 1, card.head), card);
    }
    fail(card)
}

// An object of the first left side.
#[tactic(auto, unfolding(meaning::specs::Card::take_first))]
fn take_first(card: Card, word: &[u8]) -> Card
    ensures { result ≡ take_first card word.now }
{
    if object_of(word).is_none() {
        return fail(card);
    }
    if card.head.p < 255 {
        return sizing(7, with_p(card.head.p + 1, card.head), card);
    }
    fail(next(22, card))
}

// An object of it, or |.
#[tactic(auto, unfolding(meaning::specs::Card::take_more, meaning::specs::Text::ascii))]
fn take_more(card: Card, word: &[u8]) -> Card
    ensures { result ≡ take_more card word.now }
{
    if same(word, b"|") {
        return counting(10, 0, card);
    }
    take_first(card, word)
}

// An object of a side after the first: `after` is the card where it is the last of its side.
#[tactic(auto, unfolding(meaning::specs::Card::take_object))]
fn take_object(card: Card, word: &[u8], wants: usize, after: Card) -> Card
    requires { Small card }
    ensures { result ≡ take_object card word.now wants after }
{
    if object_of(word).is_none() {
        return fail(card);
    }
    if card.count + 1 == card.head.p {
        return after;
    }
    counting(wants, card.count + 1, card)
}

// An object of a later left side.
fn take_left(card: Card, word: &[u8]) -> Card
    requires { Small card }
    ensures { result ≡ take_object card word.now 8 (next 9 card) }
{
    take_object(card, word, 8, next(9, card))
}

// An object of a right side: the last one ends its block.
fn take_right(card: Card, word: &[u8]) -> Card
    requires { Small card }
    ensures { result ≡ take_object card word.now 10 (sizing 11 (with_m (card.head.m + 1) card.head) card) }
{
    take_object(
        card,
        word,
        10,
        sizing(11, with_m(card.head.m + 1, card.head), card),
    )
}

// Another block, or the restraint.
#[tactic(auto, unfolding(meaning::specs::Card::take_block, meaning::specs::Text::ascii))]
fn take_block(card: Card, word: &[u8]) -> Card
    ensures { result ≡ take_block card word.now }
{
    if same(word, b"initial") {
        if card.head.m < 255 {
            return counting(8, 0, card);
        }
        return fail(next(22, card));
    }
    expect(card, word, b"restraint", next(12, card))
}

// An object of the restraint.
#[tactic(auto, unfolding(meaning::specs::Card::take_member))]
fn take_member(card: Card, word: &[u8]) -> Card
    ensures { result ≡ take_member card word.now }
{
    let Some(object) = member_of(card.head, word) else {
        return fail(card);
    };
    let place = object as usize;
    if holds(card.set, place) != 0 {
        return fail(card);
    }
    standing(with_object(card.set, place), card)
}

// An object of it, or =.
#[tactic(auto, unfolding(meaning::specs::Card::take_standard, meaning::specs::Text::ascii))]
fn take_standard(card: Card, word: &[u8]) -> Card
    ensures { result ≡ take_standard card word.now }
{
    if same(word, b"=") {
        return next(14, card);
    }
    take_member(card, word)
}

// The accepted sum.
#[tactic(auto, unfolding(meaning::specs::Card::take_sum))]
fn take_sum(card: Card, word: &[u8]) -> Card
    ensures { result ≡ take_sum card word.now }
{
    match signed(word) {
        Some(sum) => summing(sum, card),
        None => fail(card),
    }
}

// A reading.
#[tactic(auto, unfolding(meaning::specs::Card::take_reading))]
fn take_reading(card: Card, word: &[u8]) -> Card
    requires { Small card }
    ensures { result ≡ take_reading card word.now }
{
    if is_reading(word) {
        return weighed(card);
    }
    fail(card)
}

// A reading, names or other.
#[tactic(auto, unfolding(meaning::specs::Card::take_after, meaning::specs::Text::ascii))]
fn take_after(card: Card, word: &[u8]) -> Card
    requires { Small card }
    ensures { result ≡ take_after card word.now }
{
    if same(word, b"names") {
        if card.head.n + card.head.flag % 2 == 0 {
            return counting(19, 128, card);
        }
        return counting(18, 0, card);
    }
    if same(word, b"other") {
        return counting(20, 128, card);
    }
    take_reading(card, word)
}

// A name.
#[tactic(auto, unfolding(meaning::specs::Card::take_name))]
fn take_name(card: Card, word: &[u8]) -> Card
    requires { (Small card) × (length word.now ≤ 65536) }
    ensures { result ≡ take_name card word.now }
{
    if !is_name(word) {
        return fail(card);
    }
    if card.count + 1 == card.head.n + card.head.flag % 2 {
        return counting(19, 128, card);
    }
    counting(18, card.count + 1, card)
}

// A tag.
#[tactic(auto, unfolding(meaning::specs::Card::take_tag))]
fn take_tag(card: Card, word: &[u8]) -> Card
    ensures { result ≡ take_tag card word.now }
{
    if !is_tag(card.count, word) {
        return fail(card);
    }
    counting(21, hex_byte(word, 0) as usize, card)
}

// The bytes of an optional field.
#[tactic(auto, unfolding(meaning::specs::Card::take_bytes))]
fn take_bytes(card: Card, word: &[u8]) -> Card
    ensures { result ≡ take_bytes card word.now }
{
    if is_body(word) {
        return next(19, card);
    }
    fail(card)
}

// A word by what it is to be.
#[tactic(auto, unfolding(meaning::specs::Card::taken, meaning::specs::Text::ascii))]
pub(crate) fn taken(card: Card, word: &[u8]) -> Card
    requires { (Small card) × (length word.now ≤ 65536) × (1 ≤ card.wants) × (card.wants ≤ 21) }
    ensures { result ≡ taken card word.now }
{
    match card.wants {
        1 => take_kind(card, word),
        2 => take_size(card, word),
        3 => expect(card, word, b"fixed", next(4, card)),
        4 => take_fixed(card, word),
        5 => expect(card, word, b"initial", next(6, card)),
        6 => take_first(card, word),
        7 => take_more(card, word),
        8 => take_left(card, word),
        9 => expect(card, word, b"|", counting(10, 0, card)),
        10 => take_right(card, word),
        11 => take_block(card, word),
        12 => take_member(card, word),
        13 => take_standard(card, word),
        14 => take_sum(card, word),
        15 => expect(card, word, b"readings", next(16, card)),
        16 => take_reading(card, word),
        17 => take_after(card, word),
        18 => take_name(card, word),
        19 => expect(card, word, b"other", next(20, card)),
        20 => take_tag(card, word),
        _ => take_bytes(card, word),
    }
}
