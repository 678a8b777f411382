// The deviations of a job under its exact values: all numerators into lent room, or that of one block.
ghost use Rattle.std.specs.Prelude.{◌≡◌, ℕ, ◌+◌, ◌*◌, ◌<◌, ◌≤◌, get_or, length};
ghost use Rattle.algebra.specs.Buffers.{over};
ghost use Rattle.meaning.specs.Calls.{deviations_verdict, deviations_after, deviation_answer};
ghost use Rattle.meaning.specs.Wide.{wide};
ghost use Rattle.weighing.specs.Developed.{Weighed};
ghost use Rattle.analysis.specs.Worked.{total_at, squares_in, Held, fitted_in, deviation_in};

use crate::spread::worked;
use crate::values::set_sum;
use arithmetic::add_square;
use records::{BlockDeviation, Head, Refusal, Verdict, Wide};
use verdicts::{is_refused, no_deviation};
use weighing::blocks_refusal;

// The deviation numerators of all blocks.
pub fn deviations(head: Head, blocks: &[u8], readings: &[i32], deviations: &mut [i64]) -> Verdict
    ensures value { result ≡ deviations_verdict head blocks.now readings.now (length deviations.old) }
    ensures deviations_after { deviations.new ≡ deviations_after head blocks.now readings.now deviations.old }
{
    let solved = worked(head, blocks, readings, deviations);
    solved.verdict
}

// The deviation of one block: its numerator, over v·beta.
pub fn deviation_of(head: Head, blocks: &[u8], readings: &[i32], block: usize) -> BlockDeviation
    ensures { result ≡ deviation_answer head blocks.now readings.now block }
{
    let tested = blocks_refusal(head, blocks, readings);
    // A refusal hands back zeros beside its verdict.
    if is_refused(tested) {
        return no_deviation(tested);
    }
    if head.m * head.n <= block {
        return no_deviation(Err(Refusal {
            number: 5,
            place: block,
        }));
    }
    let mut deviations = [0i64; 1300];
    let solved = worked(head, blocks, readings, &mut deviations);
    let verdict = solved.verdict;
    if is_refused(verdict) {
        return no_deviation(verdict);
    }
    let numerator = deviations[block];
    BlockDeviation {
        verdict: Ok(()),
        numerator,
        denominator: solved.spreading.vbeta,
    }
}

// What the totals make of block k: left group minus right group.
fn fitted(words: &[u64], totals: &[i64; 50], k: usize) -> i64
    requires k_in_bounds { 2 * k + 1 < length words.now }
    requires held { (Held totals.now (get_or words.now (2 * k) 0)) × (Held totals.now (get_or words.now (2 * k + 1) 0)) }
    ensures { result ≡ fitted_in words.now (total_at totals.now) k }
{
    let left_word = words[2 * k];
    let right_word = words[2 * k + 1];
    let left = set_sum(totals, left_word);
    let right = set_sum(totals, right_word);
    left - right
}

// Lays the deviation numerator of every block into `deviations`, and hands back the sum of the squared readings: the readings are walked once for both.
pub(crate) fn fill_deviations(
    words: &[u64],
    readings: &[i32],
    totals: &[i64; 50],
    b: usize,
    vbeta: u64,
    deviations: &mut [i64],
) -> Wide
    requires weighed { Weighed words.now readings.now b }
    requires by_index { (c : ℕ) → c < 2 * b → Held totals.now (get_or words.now c 0) }
    requires b_in_bounds { (b ≤ length deviations.old) × (vbeta ≤ 2600) }
    ensures value { result ≡ wide (squares_in readings.now b) }
    ensures deviations_after { deviations.new ≡ over b (deviation_in words.now readings.now (total_at totals.now) vbeta)
        deviations.old }
{
    let scale = vbeta as i64;
    let mut squares = Wide { high: 0, low: 0 };
    // A block has two words, one reading and one deviation, so the loop goes by its number.
    for k in 0..b {
        let y = i64::from(readings[k]);
        squares = add_square(squares, y.unsigned_abs());
        deviations[k] = scale * y - fitted(words, totals, k);
    }
    squares
}
