// The lines of a sheet: what a `value` line and a `spread` line claim, and what is read with each line.
ghost use Rattle.std.specs.Prelude.{◌≡◌, ◌≤◌};
ghost use Rattle.meaning.specs.SheetText.{claim_of, spread_of, unread, with_value, with_spread, with_line, added, put};

use crate::pieces::count;
use crate::words::{word_is, word_number, word_signed};
use records::{SheetRead, SheetSpread};

// What a `value` line claims, where it is to name that object.
#[tactic(auto, unfolding(meaning::specs::SheetText::claim_of))]
fn claim(line: &[u8], object: usize) -> Option<i64>
    ensures { result ≡ claim_of object line.now }
{
    if count(line, b' ') != 4 {
        return None;
    }
    if word_number(line, 1)? != object as u64 {
        return None;
    }
    word_signed(line, 4)
}

// What a `spread` line claims.
#[tactic(auto, unfolding(meaning::specs::SheetText::spread_of, meaning::specs::Text::ascii))]
fn spread(line: &[u8]) -> Option<SheetSpread>
    ensures { result ≡ spread_of line.now }
{
    if count(line, b' ') != 4 {
        return None;
    }
    let freedom = word_number(line, 3)?;
    if word_is(line, 4, b"none") {
        return Some(SheetSpread {
            freedom,
            hundredths: None,
        });
    }
    let hundredths = word_number(line, 4)?;
    Some(SheetSpread {
        freedom,
        hundredths: Some(hundredths),
    })
}

// What was read, where line k cannot be.
pub(crate) fn unread(k: usize, read: SheetRead) -> SheetRead
    ensures { result ≡ unread k read }
{
    SheetRead {
        line: Some(k),
        ..read
    }
}

// What is read with a `value` line.
#[tactic(auto, unfolding(meaning::specs::SheetText::with_value))]
fn with_value(k: usize, line: &[u8], read: SheetRead) -> SheetRead
    requires { read.count ≤ 65536 }
    ensures { result ≡ with_value k line.now read }
{
    if claim(line, read.count).is_none() {
        return unread(k, read);
    }
    SheetRead {
        line: None,
        count: read.count + 1,
        ..read
    }
}

// What is read with a `spread` line, of which there is one.
#[tactic(auto, unfolding(meaning::specs::SheetText::with_spread))]
fn with_spread(k: usize, line: &[u8], read: SheetRead) -> SheetRead
    ensures { result ≡ with_spread k line.now read }
{
    if read.spread.is_some() {
        return unread(k, read);
    }
    let claimed = spread(line);
    if claimed.is_none() {
        return unread(k, read);
    }
    SheetRead {
        line: None,
        spread: claimed,
        ..read
    }
}

// What is read with line k; after a line that cannot be read, nothing.
#[tactic(auto, unfolding(meaning::specs::SheetText::with_line, meaning::specs::Text::ascii))]
pub(crate) fn with_line(k: usize, line: &[u8], read: SheetRead) -> SheetRead
    requires { read.count ≤ 65536 }
    ensures { result ≡ with_line k line.now read }
{
    if read.line.is_some() {
        return read;
    }
    if word_is(line, 0, b"value") {
        return with_value(k, line, read);
    }
    if word_is(line, 0, b"spread") {
        return with_spread(k, line, read);
    }
    read
}

// Puts the claim that a line adds behind those that were read, where there is room.
#[tactic(auto, unfolding(meaning::specs::SheetText::added, meaning::specs::Text::ascii))]
pub(crate) fn put_claim(line: &[u8], read: SheetRead, claims: &mut [i64])
    ensures { claims.new ≡ put (added line.now read) read.count claims.old }
{
    if read.line.is_some() || !word_is(line, 0, b"value") {
        return;
    }
    let at = read.count;
    if let Some(claimed) = claim(line, at) {
        if at < claims.len() {
            claims[at] = claimed;
        }
    }
}
