// Whether there can be practice: the design, balanced, with a true value for each object, all in their range, and the width in its.
ghost use Rattle.std.specs.Prelude.{◌≡◌};
ghost use Rattle.meaning.specs.Practice.{near, practised};

use balance::judge_by_differences;
use design::{objects, sized};
use records::{Head, Refusal, Verdict};

// The largest true value, on either side of 0, and the largest width.
const TRUTH_LIMIT: i32 = 3000;

const WIDTH_LIMIT: usize = 8;

// The sizes, the lengths of the block list and of the true values, the blocks, the balance; then the ranges of the true values and of the width.
pub(crate) fn practice_refusal(head: Head, blocks: &[u8], truths: &[i32], width: usize) -> Verdict
    ensures { result ≡ practised head blocks.now truths.now width }
{
    if !sized(head) {
        return Err(Refusal {
            number: 4,
            place: 0,
        });
    }
    let p = head.p;
    let m = head.m;
    if blocks.len() != 2 * p * m {
        return Err(Refusal {
            number: 3,
            place: 0,
        });
    }
    if truths.len() != objects(head) {
        return Err(Refusal {
            number: 3,
            place: 0,
        });
    }
    judge_by_differences(head, blocks).verdict?;
    if !all_near(truths) {
        return Err(Refusal {
            number: 16,
            place: 0,
        });
    }
    if WIDTH_LIMIT < width {
        return Err(Refusal {
            number: 16,
            place: 0,
        });
    }
    Ok(())
}

// Whether every true value is in its range.
fn all_near(truths: &[i32]) -> bool
    ensures { result ≡ near truths.now }
{
    truths
        .iter()
        .all(|truth| (-TRUTH_LIMIT..=TRUTH_LIMIT).contains(truth))
}
