// A card read byte by byte: its words are taken as they end, and the bytes that they give are put one behind the other.
ghost use Rattle.std.specs.Prelude.{◌≡◌, cond, not, false, ◌||◌, ◌+◌, ◌≤◌, ◌<◌, length, eqb, ltb};
ghost use Rattle.algebra.specs.Buffers.{Wrote};
ghost use Rattle.meaning.specs.Card.{adds, step, within, card_of, bytes_in, word_in};
ghost use Rattle.cards.specs.Sizes.{Kept};
ghost use Rattle.cards.specs.Putting.{Puts};
ghost use Rattle.cards.specs.Walking.{Ended, Turned};

use crate::moves::{longer, no_card};
use crate::taking::taken;
use crate::written::put_word;
use records::Card;

// A card as far as it was walked: the card of the words that have ended, the place that is looked for among them, whether a comment goes on, and where the
// present word starts.
#[derive(Clone, Copy)]
pub struct Walk {
    pub card: Card,
    pub at: usize,
    pub comment: bool,
    pub start: usize,
}

// A word taken, and its bytes put behind those before it.
fn take_word(card: Card, word: &[u8], body: &mut [u8], k: usize) -> Card
    requires { (Kept k card) × (k ≤ 65536) × (1 ≤ length word.now) × (length word.now ≤ 65536) }
    ensures value { result ≡ step card word.now }
    ensures puts { Puts (not result.bad) body.old card.length (adds card word.now) body.new result.length }
{
    if card.bad {
        return card;
    }
    let at = card.length;
    let next = put_word(body, at, card, word, k);
    let after = taken(card, word);
    longer(next - at, after)
}

// The place of the word that starts here, where the card before it keeps to the limits; else the place before.
fn place_of(card: Card, wants: usize, len: usize, at: usize, start: usize) -> usize
    ensures { result ≡ cond (within wants len card) start at }
{
    if !card.bad && card.wants <= wants && card.length <= len {
        start
    } else {
        at
    }
}

// The word that ends before place k, where there is one.
fn end_word(walk: Walk, text: &[u8], k: usize, wants: usize, len: usize, body: &mut [u8]) -> Walk
    requires { (walk.start ≤ k) × (k ≤ length text.now) × (length text.now ≤ 65536) × (Kept walk.start walk.card) }
    ensures { Ended text.now k wants len walk body.old result body.new }
{
    let start = walk.start;
    if start == k {
        return walk;
    }
    let card = walk.card;
    let at = place_of(card, wants, len, walk.at, start);
    let after = take_word(card, &text[start..k], body, start);
    Walk {
        card: after,
        at,
        ..walk
    }
}

// The byte at place k.
fn turn(walk: Walk, text: &[u8], k: usize, wants: usize, len: usize, body: &mut [u8]) -> Walk
    requires { (walk.start ≤ k) × (k < length text.now) × (length text.now ≤ 65536) × (Kept walk.start walk.card) }
    ensures { Turned text.now k wants len walk body.old result body.new }
{
    let byte = text[k];
    if walk.comment {
        return Walk {
            comment: byte != b'\n',
            start: k + 1,
            ..walk
        };
    }
    if ends_word(byte) {
        let ended = end_word(walk, text, k, wants, len, body);
        return Walk {
            comment: byte == b'#',
            start: k + 1,
            ..ended
        };
    }
    walk
}

// Whether a byte is none of a word: a blank, or the start of a comment.
fn ends_word(byte: u8) -> bool
    ensures { result ≡ (ltb byte 33 || eqb byte 35) }
{
    byte < 33 || byte == b'#'
}

// A whole card, its bytes, and the last word within the limits.
pub(crate) fn walked(text: &[u8], wants: usize, len: usize, body: &mut [u8]) -> Walk
    requires { length text.now ≤ 65536 }
    ensures card_value { result.card ≡ card_of text.now }
    ensures at_value { result.at ≡ word_in wants len text.now }
    ensures wrote { result.card.bad ≡ false → Wrote body.old 0 (bytes_in text.now) body.new result.card.length }
    ensures kept { Kept (length text.now) result.card }
{
    let card = no_card();
    let mut walk = Walk {
        card,
        at: 0,
        comment: false,
        start: 0,
    };
    // By places and not by bytes: a word is cut out of the text from the place where it starts to this one.
    for k in 0..text.len() {
        walk = turn(walk, text, k, wants, len, body);
    }
    end_word(walk, text, text.len(), wants, len, body)
}
