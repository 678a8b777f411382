// The readings of a job: how many there are, and their range. The lengths of both slices of a job are looked at before any content.
ghost use Rattle.std.specs.Prelude.{◌≡◌, ltb, nat_abs};
ghost use Rattle.meaning.specs.Refusals.{◌⨾◌, clean, reading_limit, far_reading, in_reach};
ghost use Rattle.meaning.specs.Calls.{slices};

use design::{pairs_refusal, sized};
use records::{Head, Refusal, Verdict};

// The largest reading, on either side of 0.
const READING_LIMIT: i32 = 200000000;

// The sizes, then the length of the block list, then the number of readings.
pub fn slices_refusal(head: Head, blocks: &[u8], readings: &[i32]) -> Verdict
    ensures { result ≡ slices head blocks.now readings.now }
{
    if !sized(head) {
        return Err(Refusal {
            number: 4,
            place: 0,
        });
    }
    let p = head.p;
    let m = head.m;
    let n = head.n;
    if blocks.len() != 2 * p * m {
        return Err(Refusal {
            number: 3,
            place: 0,
        });
    }
    if readings.len() != m * n {
        return Err(Refusal {
            number: 3,
            place: 0,
        });
    }
    Ok(())
}

// The sizes, the two lengths, and the first byte that offends.
pub fn blocks_refusal(head: Head, blocks: &[u8], readings: &[i32]) -> Verdict
    ensures { result ≡ slices head blocks.now readings.now ⨾ clean head blocks.now }
{
    slices_refusal(head, blocks, readings)?;
    pairs_refusal(head, blocks)
}

// The first reading out of range refuses, at its number.
pub fn reach_refusal(readings: &[i32]) -> Verdict
    ensures { result ≡ in_reach readings.now }
{
    let far = far_reading(readings);
    if far != readings.len() {
        return Err(Refusal {
            number: 8,
            place: far,
        });
    }
    Ok(())
}

// The first reading out of range, or how many there are where none is. Where the place was made into a refusal at once, the sum of squares took a third more.
fn far_reading(readings: &[i32]) -> usize
    ensures { result ≡ far_reading readings.now }
{
    for (k, y) in readings.iter().enumerate() {
        if is_far(*y) {
            return k;
        }
    }
    readings.len()
}

// Whether a reading is out of range.
fn is_far(y: i32) -> bool
    ensures { result ≡ ltb reading_limit (nat_abs y) }
{
    !(-READING_LIMIT..=READING_LIMIT).contains(&y)
}
