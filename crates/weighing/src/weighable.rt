// Whether the words of a job's blocks and its readings can be weighed: their lengths, no object from v on, no reading out of range, and room for the
// totals.
ghost use Rattle.std.specs.Prelude.{◌≡◌, ◌*◌, ◌≤◌, length};
ghost use Rattle.weighing.specs.Verdicts.{stray_word, weigh_verdict};

use crate::readings::reach_refusal;
use design::{objects, sized};
use records::{Head, Refusal, Verdict};

// Why words and readings are not weighed, or that they are, into a room of the length given.
pub(crate) fn weighing_refusal(head: Head, words: &[u64], readings: &[i32], room: usize) -> Verdict
    ensures { result ≡ weigh_verdict head words.now readings.now room }
{
    if !sized(head) {
        return Err(Refusal {
            number: 4,
            place: 0,
        });
    }
    let v = objects(head);
    let b = head.m * head.n;
    if words.len() < 2 * b {
        return Err(Refusal {
            number: 3,
            place: 0,
        });
    }
    if readings.len() != b {
        return Err(Refusal {
            number: 3,
            place: 0,
        });
    }
    let stray = stray_word(words, b, v);
    if stray != 2 * b {
        return Err(Refusal {
            number: 5,
            place: stray,
        });
    }
    reach_refusal(readings)?;
    if room < v {
        return Err(Refusal {
            number: 10,
            place: 0,
        });
    }
    Ok(())
}

// The first of the words of b blocks that names an object from v on, or 2b where none does. A turn of the loop looks at both words of a block, since
// it is run for every job and goes over all of its words: by a search over single words the sum of the squared totals took up to a third more.
fn stray_word(words: &[u64], b: usize, v: usize) -> usize
    requires { (2 * b ≤ length words.now) × (b ≤ 1300) × (v ≤ 50) }
    ensures { result ≡ stray_word words.now (2 * b) v }
{
    let end = 1u64 << v;
    for k in 0..b {
        if end <= words[2 * k] {
            return 2 * k;
        }
        if end <= words[2 * k + 1] {
            return 2 * k + 1;
        }
    }
    2 * b
}
