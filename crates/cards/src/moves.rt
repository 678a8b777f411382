// A card moved on by a word: what is wanted next, and what that word changes.
ghost use Rattle.std.specs.Prelude.{◌≡◌, ◌+◌, ◌^◌, ◌<◌};
ghost use Rattle.meaning.specs.Analysis.{member};
ghost use Rattle.meaning.specs.Card.{no_card, next, fail, sizing, counting, summing, weighed, longer, with_n, with_flag, with_p, with_m};
ghost use Rattle.cards.specs.Moves.{with_set};

use records::{Card, Head};

// Before the first word.
pub(crate) fn no_card() -> Card
    ensures { result ≡ no_card }
{
    let head = Head {
        n: 0,
        flag: 0,
        p: 0,
        m: 0,
    };
    Card {
        wants: 1,
        bad: false,
        head,
        count: 0,
        set: 0,
        sum: 0,
        readings: 0,
        length: 0,
    }
}

// Nothing but what is wanted next.
pub(crate) fn next(wants: usize, card: Card) -> Card
    ensures { result ≡ next wants card }
{
    Card {
        wants,
        bad: false,
        ..card
    }
}

// The word is not what it was to be.
pub(crate) fn fail(card: Card) -> Card
    ensures { result ≡ fail card }
{
    Card { bad: true, ..card }
}

// Other sizes.
pub(crate) fn sizing(wants: usize, head: Head, card: Card) -> Card
    ensures { result ≡ sizing wants head card }
{
    Card {
        wants,
        bad: false,
        head,
        ..card
    }
}

// Another count, of objects or of names, or a tag.
pub(crate) fn counting(wants: usize, count: usize, card: Card) -> Card
    ensures { result ≡ counting wants count card }
{
    Card {
        wants,
        bad: false,
        count,
        ..card
    }
}

// A set with one more object.
pub(crate) fn with_object(set: u64, object: usize) -> u64
    requires { (object < 64) × (member set object ≡ 0) }
    ensures { result ≡ set + 2 ^ object }
{
    set + (1u64 << object)
}

// Another set of objects in the restraint.
pub(crate) fn standing(set: u64, card: Card) -> Card
    ensures { result ≡ with_set set card }
{
    Card {
        wants: 13,
        bad: false,
        set,
        ..card
    }
}

// The accepted sum.
pub(crate) fn summing(sum: i64, card: Card) -> Card
    ensures { result ≡ summing sum card }
{
    Card {
        wants: 15,
        bad: false,
        sum,
        ..card
    }
}

// One more reading.
pub(crate) fn weighed(card: Card) -> Card
    requires { card.readings < 18446744073709551615 }
    ensures { result ≡ weighed card }
{
    Card {
        wants: 17,
        bad: false,
        readings: card.readings + 1,
        ..card
    }
}

// More bytes in the file.
pub(crate) fn longer(bytes: usize, card: Card) -> Card
    requires { card.length + bytes < 18446744073709551615 }
    ensures { result ≡ longer bytes card }
{
    Card {
        length: card.length + bytes,
        ..card
    }
}

// A head with another n, flag, p or m.
pub(crate) fn with_n(n: usize, head: Head) -> Head
    ensures { result ≡ with_n n head }
{
    Head { n, ..head }
}

pub(crate) fn with_flag(flag: usize, head: Head) -> Head
    ensures { result ≡ with_flag flag head }
{
    Head { flag, ..head }
}

pub(crate) fn with_p(p: usize, head: Head) -> Head
    ensures { result ≡ with_p p head }
{
    Head { p, ..head }
}

pub(crate) fn with_m(m: usize, head: Head) -> Head
    ensures { result ≡ with_m m head }
{
    Head { m, ..head }
}
