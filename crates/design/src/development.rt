// The development of a design's initial blocks into lent words.
ghost use Rattle.std.specs.Prelude.{◌≡◌, map, true, ℕ, ◌+◌, ◌*◌, ◌≤◌, ◌<◌, length, get_or};
ghost use Rattle.algebra.specs.Buffers.{over};
ghost use Rattle.meaning.specs.Design.{moved};
ghost use Rattle.meaning.specs.Refusals.{accepted, in_range};
ghost use Rattle.meaning.specs.Calls.{word, word_at, design_verdict, develop_verdict, develop_after, initial_verdict, initial_words};

use crate::addition::{Addition, card_of};
use crate::blocks::pairs_refusal;
use records::{Head, Refusal, Verdict};

// Develops every initial block into the words: left word, right word, next shift. Later words stay.
pub fn develop(head: Head, blocks: &[u8], words: &mut [u64]) -> Verdict
    ensures value { result ≡ develop_verdict head blocks.now (length words.old) }
    ensures words_after { words.new ≡ develop_after head blocks.now words.old }
{
    pairs_refusal(head, blocks)?;
    if words.len() < 2 * (head.m * head.n) {
        return Err(Refusal {
            number: 10,
            place: 0,
        });
    }
    let card = card_of(head);
    let addition = Addition { head, card: &card };
    write_words(addition, blocks, words);
    Ok(())
}

// Develops initial block j into its own part of the words. All other words stay, and room for all of them is asked.
pub fn develop_initial(head: Head, blocks: &[u8], j: usize, words: &mut [u64]) -> Verdict
    ensures value { result ≡ initial_verdict head blocks.now j (length words.old) }
    ensures words_after { words.new ≡ initial_words head blocks.now j words.old }
{
    pairs_refusal(head, blocks)?;
    let m = head.m;
    let n = head.n;
    let room = 2 * (m * n);
    if m <= j {
        return Err(Refusal {
            number: 5,
            place: j,
        });
    }
    if words.len() < room {
        return Err(Refusal {
            number: 10,
            place: 0,
        });
    }
    let first = 2 * n * j;
    let card = card_of(head);
    let addition = Addition { head, card: &card };
    write_shifts(addition, j, blocks, &mut words[first..]);
    Ok(())
}

// A side as a word, at a shift.
fn side_word(addition: Addition, shift: usize, side: &[u8]) -> u64
    requires { (shift < addition.head.n) × (length side.now ≤ 25)
        × ((i : ℕ) → i < length side.now → in_range addition.head (get_or side.now i 0) ≡ true) }
    ensures { result ≡ word (map (moved addition.entry.head shift) side.now) }
{
    let mut sum: u64 = 0;
    for byte in side {
        sum += 1u64 << addition.object_of(shift, *byte);
    }
    sum
}

// Writes the words of initial block j, shift after shift, to the front of a part of the words.
fn write_shifts(addition: Addition, j: usize, blocks: &[u8], part: &mut [u64])
    requires { (design_verdict addition.head blocks.now ≡ accepted) × (j < addition.head.m) × (2 * addition.head.n ≤ length part.old) }
    ensures { part.new ≡ over (2 * addition.entry.head.n)
        (λ c. word_at addition.entry.head blocks.now (2 * addition.entry.head.n * j + c)) part.old }
{
    let n = addition.head.n;
    let p = addition.head.p;
    let left = 2 * p * j;
    let right = left + p;
    let end = right + p;
    for shift in 0..n {
        part[2 * shift] = side_word(addition, shift, &blocks[left..right]);
        part[2 * shift + 1] = side_word(addition, shift, &blocks[right..end]);
    }
}

// Writes the words of all initial blocks to the front of the words, and lends each block's part on.
fn write_words(addition: Addition, blocks: &[u8], words: &mut [u64])
    requires { (design_verdict addition.head blocks.now ≡ accepted) × (2 * (addition.head.m * addition.head.n) ≤ length words.old) }
    ensures { words.new ≡ over (2 * (addition.entry.head.m * addition.entry.head.n)) (word_at addition.entry.head blocks.now) words.old }
{
    let n = addition.head.n;
    let m = addition.head.m;
    for j in 0..m {
        let start = 2 * n * j;
        write_shifts(addition, j, blocks, &mut words[start..]);
    }
}
