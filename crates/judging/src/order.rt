// The tests of a whole job, in the request's order: 4, 3, 5, 6, 7, 11, 8. The design is judged once, and its judgement handed on.
ghost use Rattle.std.specs.Prelude.{◌≡◌};
ghost use Rattle.meaning.specs.Calls.{job_verdict};
ghost use Rattle.judging.specs.Judgement.{job_judged};

use crate::restraint::restraint_refusal;
use balance::judge_by_differences;
use records::{Head, Judged, Verdict};
use verdicts::{first, is_refused, no_judgement};
use weighing::{reach_refusal, slices_refusal};

// Why a whole job is refused, or that it is accepted, with no room.
pub fn refusal(head: Head, blocks: &[u8], readings: &[i32], set: u64, sum: i64) -> Verdict
    ensures { result ≡ job_verdict head blocks.now readings.now set sum }
{
    judged_job(head, blocks, readings, set, sum).verdict
}

// The verdict on a whole job, with the parameters of its design where it is accepted.
pub fn judged_job(head: Head, blocks: &[u8], readings: &[i32], set: u64, sum: i64) -> Judged
    ensures { result ≡ job_judged head blocks.now readings.now set sum }
{
    let sliced = slices_refusal(head, blocks, readings);
    // A refusal hands back zeros beside its verdict.
    if is_refused(sliced) {
        return no_judgement(sliced);
    }
    let judged = judge_by_differences(head, blocks);
    let balanced = judged.verdict;
    let restrained = restraint_refusal(head, set, sum);
    let reached = reach_refusal(readings);
    let verdict = first(first(balanced, restrained), reached);
    if is_refused(verdict) {
        return no_judgement(verdict);
    }
    judged
}
