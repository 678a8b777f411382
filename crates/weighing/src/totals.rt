// Totals and the sum of their squares: the design is developed into words of its own, which are weighed with the readings. Balance is not asked.
ghost use Rattle.std.specs.Prelude.{◌≡◌};
ghost use Rattle.meaning.specs.Refusals.{◌⨾◌, clean};
ghost use Rattle.meaning.specs.Calls.{slices, words_under, squared_totals_answer, total_answer};

use crate::adding::weigh;
use crate::readings::slices_refusal;
use design::{develop, objects};
use records::{Head, ObjectTotal, Refusal, SquareSum, Verdict};
use verdicts::{is_refused, no_sum, no_total};

// T(i) of one object. The readings are tested where they are weighed, and totals that are refused stay 0.
pub fn total(head: Head, blocks: &[u8], readings: &[i32], object: usize) -> ObjectTotal
    ensures { result ≡ total_answer head blocks.now readings.now object }
{
    let mut words = [0u64; 2600];
    let tested = developed(head, blocks, readings, &mut words);
    // A refusal hands back zeros beside its verdict.
    if is_refused(tested) {
        return no_total(tested);
    }
    if objects(head) <= object {
        return no_total(Err(Refusal {
            number: 5,
            place: object,
        }));
    }
    let mut totals = [0i64; 50];
    let weighed = weigh(head, &words, readings, &mut totals);
    let verdict = weighed.verdict;
    let total = totals[object];
    ObjectTotal { verdict, total }
}

// The sum of the squared totals.
pub fn sum_of_squared_totals(head: Head, blocks: &[u8], readings: &[i32]) -> SquareSum
    ensures { result ≡ squared_totals_answer head blocks.now readings.now }
{
    let mut words = [0u64; 2600];
    let tested = developed(head, blocks, readings, &mut words);
    // A refusal hands back zeros beside its verdict.
    if is_refused(tested) {
        return no_sum(tested);
    }
    let mut totals = [0i64; 50];
    weigh(head, &words, readings, &mut totals)
}

// Tests the sizes, the lengths and the block list, and develops the design into `words`.
fn developed(head: Head, blocks: &[u8], readings: &[i32], words: &mut [u64; 2600]) -> Verdict
    ensures value { result ≡ slices head blocks.now readings.now ⨾ clean head blocks.now }
    ensures words_after { words.new ≡ words_under (slices head blocks.now readings.now ⨾ clean head blocks.now)
        head blocks.now words.old }
{
    slices_refusal(head, blocks, readings)?;
    develop(head, blocks, words)
}
