// Any blocks as a list of objects, p left and p right ones for each block: why a list is refused, and the words of its blocks.
ghost use Rattle.std.specs.Prelude.{◌≡◌, ℕ, ◌+◌, ◌*◌, ◌≤◌, ◌<◌, length, get_or};
ghost use Rattle.algebra.specs.Buffers.{over};
ghost use Rattle.meaning.specs.Calls.{word};
ghost use Rattle.meaning.specs.Groups.{list_sized, strays, stray, list_verdict};
ghost use Rattle.groups.specs.Words.{list_word_at};

use crate::labels::even_groups;
use design::stands_among;
use records::{Refusal, Verdict};

// Why a list of blocks is refused, or that it is accepted: the sizes, the two lengths, the groups, then the first byte that is no object or stands
// twice in its block.
pub(crate) fn list_refusal(
    count: usize,
    v: usize,
    p: usize,
    blocks: &[u8],
    groups: &[u8],
) -> Verdict
    ensures { result ≡ list_verdict count v p blocks.now groups.now }
{
    if !list_sized(count, v, p) {
        return Err(Refusal {
            number: 4,
            place: 0,
        });
    }
    if blocks.len() != 2 * p * count {
        return Err(Refusal {
            number: 3,
            place: 0,
        });
    }
    if groups.len() != v {
        return Err(Refusal {
            number: 3,
            place: 0,
        });
    }
    if !even_groups(groups) {
        return Err(Refusal {
            number: 14,
            place: 0,
        });
    }
    let at = stray(v, p, blocks);
    if at != blocks.len() {
        return Err(Refusal {
            number: 5,
            place: at,
        });
    }
    Ok(())
}

// Whether the sizes are the request's. Each is bounded before a product is made of it.
fn list_sized(count: usize, v: usize, p: usize) -> bool
    ensures { result ≡ list_sized count v p }
{
    (1..=1300).contains(&count) && v <= 50 && (1..=v / 2).contains(&p)
}

// The first byte that is no object or stands twice in its block, or the length where none does. Whether a byte strays depends on its place, so the loop
// goes by the place.
fn stray(v: usize, p: usize, blocks: &[u8]) -> usize
    requires { (1 ≤ p) × (p ≤ 25) }
    ensures { result ≡ stray v p blocks.now }
{
    for i in 0..blocks.len() {
        if strays(v, p, blocks, i) {
            return i;
        }
    }
    blocks.len()
}

// Whether byte i is no object, or stands earlier in its block.
fn strays(v: usize, p: usize, blocks: &[u8], i: usize) -> bool
    requires { (1 ≤ p) × (p ≤ 25) × (i < length blocks.now) }
    ensures { result ≡ strays v p blocks.now i }
{
    let byte = blocks[i];
    usize::from(byte) >= v || stands_among(&blocks[i - i % (2 * p)..i], byte)
}

// Writes the words of the blocks to the front of the words: left word, right word, next block. A block has two words and two sides, so the loop goes by
// its number.
pub(crate) fn write_words(count: usize, p: usize, blocks: &[u8], words: &mut [u64])
    requires { (count ≤ 1300) × (p ≤ 25) × (2 * p * count ≤ length blocks.now) × (2 * count ≤ length words.old)
        × ((i : ℕ) → i < length blocks.now → get_or blocks.now i 0 < 50) }
    ensures { words.new ≡ over (2 * count) (list_word_at p blocks.now) words.old }
{
    for k in 0..count {
        let left = 2 * p * k;
        let right = left + p;
        let end = right + p;
        words[2 * k] = side_word(&blocks[left..right]);
        words[2 * k + 1] = side_word(&blocks[right..end]);
    }
}

// A side as a word.
fn side_word(side: &[u8]) -> u64
    requires { (length side.now ≤ 25) × ((i : ℕ) → i < length side.now → get_or side.now i 0 < 50) }
    ensures { result ≡ word side.now }
{
    let mut sum: u64 = 0;
    for byte in side {
        sum += 1u64 << *byte;
    }
    sum
}
