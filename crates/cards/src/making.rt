// The file of a card, tested as every file is; what is refused in it is moved to the card's word.
ghost use Rattle.std.specs.Prelude.{◌≡◌, ◌-◌, ◌≤◌, length};
ghost use Rattle.meaning.specs.Card.{word_in, wants_for, bytes_before, moved_to, file_verdict, is_whole, card_answer, card_after};
ghost use Rattle.cards.specs.Filing.{Readable, Filed, filing, unreadable, file_answer, file_after};

use crate::filing::Counted;
use crate::reading::walked;
use job::{read, read_second};
use printing::put_text;
use records::{Card, CardRead, Refusal, Verdict};
use verdicts::is_refused;

// A card has at most so many bytes, a file so many, and the words of a card give at most so many of them.
const CARD_LIMIT: usize = 65536;

const FILE_LIMIT: usize = 16384;

const BYTES_LIMIT: usize = 16348;

// What is wanted before the bytes of an optional field, the last that a card can want; and where a file holds no more.
const LAST_WANTED: usize = 21;

const NO_MORE: usize = 22;

// Where the four fields of the second edition start.
const START_AT: usize = 4;

// Makes the file of a card at the front of `out`, whose other bytes stay. A refusal writes nothing.
pub fn job_of_card(card: &[u8], out: &mut [u8]) -> CardRead
    ensures value { result ≡ card_answer card.now (length out.old) }
    ensures out_after { out.new ≡ card_after card.now out.old }
{
    if CARD_LIMIT < card.len() {
        return unread(0, NO_MORE);
    }
    let mut body = [0u8; FILE_LIMIT];
    let walk = walked(card, LAST_WANTED, CARD_LIMIT, &mut body);
    let seen = walk.card;
    if seen.bad {
        return unread(walk.at, seen.wants);
    }
    if !may_end(seen) {
        return unread(card.len(), seen.wants);
    }
    let length = seen.length;
    if BYTES_LIMIT < length {
        return unread(word_of(card, LAST_WANTED, BYTES_LIMIT), NO_MORE);
    }
    make_file(card, Counted { card: seen }, &body[..length], out)
}

// A card that cannot be read.
fn unread(place: usize, wants: usize) -> CardRead
    ensures { result ≡ unreadable place wants }
{
    CardRead {
        verdict: Err(Refusal { number: 19, place }),
        wants,
        length: 0,
    }
}

// Whether a card may end here.
fn may_end(card: Card) -> bool
    ensures { result ≡ is_whole card }
{
    card.wants == 17 || card.wants == 19
}

// The last word before which at most so much was wanted and so many bytes were given.
fn word_of(card: &[u8], wants: usize, len: usize) -> usize
    requires { length card.now ≤ 65536 }
    ensures { result ≡ word_in wants len card.now }
{
    let mut body = [0u8; 1];
    let walk = walked(card, wants, len, &mut body);
    walk.at
}

// The file of a card that can be read: `body` is what its words give.
fn make_file(card: &[u8], seen: Counted, body: &[u8], out: &mut [u8]) -> CardRead
    requires { Readable card.now seen.card body.now }
    ensures value { result ≡ file_answer card.now (length out.old) }
    ensures out_after { out.new ≡ file_after card.now out.old }
{
    let mut file = [0u8; FILE_LIMIT];
    let length = seen.put_file(body, &mut file);
    let verdict = file_refusal(card, seen, &file[..length], out.len());
    // A refusal hands back zeros beside its verdict.
    if is_refused(verdict) {
        return CardRead {
            verdict,
            wants: 0,
            length: 0,
        };
    }
    let end = put_text(out, 0, &file[..length]);
    CardRead {
        verdict,
        wants: 0,
        length: end,
    }
}

// Why the file is not written: its tests, then the room.
fn file_refusal(card: &[u8], seen: Counted, file: &[u8], space: usize) -> Verdict
    requires { Filed card.now seen.card file.now }
    ensures { result ≡ filing card.now space }
{
    file_verdict(card, seen, file)?;
    if space < file.len() {
        return Err(Refusal {
            number: 10,
            place: 0,
        });
    }
    Ok(())
}

// The tests of the file.
fn file_verdict(card: &[u8], seen: Counted, file: &[u8]) -> Verdict
    requires { Filed card.now seen.card file.now }
    ensures { result ≡ file_verdict card.now }
{
    if seen.is_second() {
        return moved_to(card, START_AT, read_second(file).job.verdict);
    }
    moved_to(card, 0, read(file).verdict)
}

// A refusal of the file, moved to the word that it speaks of.
fn moved_to(card: &[u8], start: usize, verdict: Verdict) -> Verdict
    requires { length card.now ≤ 65536 }
    ensures { result ≡ moved_to card.now start verdict }
{
    verdict.map_err(|why| Refusal {
        place: word_of(
            card,
            wants_for(why.number),
            bytes_before(why.number, why.place.saturating_sub(start)),
        ),
        ..why
    })
}

// What is wanted before the word that a refusal speaks of, at most.
fn wants_for(number: u8) -> usize
    ensures { result ≡ wants_for number }
{
    match number {
        4 => 1,
        6 => 5,
        7 | 11 => 11,
        3 => 15,
        _ => LAST_WANTED,
    }
}

// How many bytes are given before that word, at most: for an object and for a reading those before its place in the file, without the starts of the fields.
fn bytes_before(number: u8, place: usize) -> usize
    ensures { result ≡ bytes_before number place }
{
    match number {
        5 => place.saturating_sub(10),
        8 => place.saturating_sub(32),
        _ => FILE_LIMIT,
    }
}
