// A whole job worked out at once: every test first, the rooms last, then words, totals, values, deviations and spread.
ghost use Rattle.std.specs.Prelude.{◌≡◌, ◌≤◌, length};
ghost use Rattle.algebra.specs.Buffers.{over};
ghost use Rattle.laws.specs.Fits.{Fits};
ghost use Rattle.meaning.specs.Design.{objects, blocks};
ghost use Rattle.meaning.specs.Calls.{rooms, analyse_answer, analyse_words, analyse_values, analyse_deviations};
ghost use Rattle.analysis.specs.Worked.{Workable, worked_out, values_in, deviations_in};

use crate::deviations::fill_deviations;
use crate::spread::measure;
use crate::values::fill_values;
use design::{develop, objects};
use judging::judged_job;
use records::{Head, Parameters, Refusal, Solved, Verdict};
use verdicts::{is_refused, no_solution};
use weighing::weigh;

// Everything at once: words, values and deviations into lent rooms. All rooms are looked at before the first is written.
pub fn analyse(
    head: Head,
    blocks: &[u8],
    readings: &[i32],
    set: u64,
    sum: i64,
    words: &mut [u64],
    values: &mut [i64],
    deviations: &mut [i64],
) -> Solved
    ensures value { result ≡ analyse_answer head blocks.now readings.now set sum
        words.old values.old deviations.old }
    ensures words_after { words.new ≡ analyse_words head blocks.now readings.now set sum
        words.old values.old deviations.old }
    ensures values_after { values.new ≡ analyse_values head blocks.now readings.now set sum
        words.old values.old deviations.old }
    ensures deviations_after { deviations.new ≡ analyse_deviations head blocks.now readings.now set sum
        words.old values.old deviations.old }
{
    let judged = judged_job(head, blocks, readings, set, sum);
    let verdict = judged.verdict;
    // A refusal hands back zeros beside its verdict.
    if is_refused(verdict) {
        return no_solution(verdict);
    }
    let roomy = rooms_refusal(head, words.len(), values.len(), deviations.len());
    if is_refused(roomy) {
        return no_solution(roomy);
    }
    // The job's tests and the room's passed, so it accepts: its answer tells nothing more, and `?` cannot serve where a record is handed back.
    let _ = develop(head, blocks, words);
    let parameters = judged.parameters;
    work(
        head, readings, set, sum, parameters, words, values, deviations,
    )
}

// Room for the words, then for the values, then for the deviations.
fn rooms_refusal(head: Head, words: usize, values: usize, deviations: usize) -> Verdict
    requires { Fits head }
    ensures { result ≡ rooms head words values deviations }
{
    let v = objects(head);
    let b = head.m * head.n;
    if words < 2 * b {
        return Err(Refusal {
            number: 10,
            place: 0,
        });
    }
    if values < v {
        return Err(Refusal {
            number: 10,
            place: 0,
        });
    }
    if deviations < b {
        return Err(Refusal {
            number: 10,
            place: 0,
        });
    }
    Ok(())
}

// Works a job out from its words, into rooms that are long enough.
fn work(
    head: Head,
    readings: &[i32],
    set: u64,
    sum: i64,
    parameters: Parameters,
    words: &[u64],
    values: &mut [i64],
    deviations: &mut [i64],
) -> Solved
    requires workable { Workable head readings.now set sum parameters words.now }
    requires head_in_bounds { (objects head ≤ length values.old) × (blocks head ≤ length deviations.old) }
    ensures value { result ≡ worked_out head readings.now set parameters words.now }
    ensures values_after { values.new ≡ values_in head readings.now set sum parameters words.now values.old }
    ensures deviations_after { deviations.new ≡ deviations_in head readings.now parameters words.now deviations.old }
{
    let mut totals = [0i64; 50];
    let squared_totals = weigh(head, words, readings, &mut totals);
    let v = objects(head);
    let b = head.m * head.n;
    let vbeta = parameters.v * (parameters.l2 - parameters.l1);
    let denominator = fill_values(&totals, v, set, vbeta, sum, values);
    let squared_readings = fill_deviations(words, readings, &totals, b, vbeta, deviations);
    let spreading = measure(head, vbeta, squared_readings, squared_totals.sum);
    Solved {
        verdict: Ok(()),
        parameters,
        denominator,
        spreading,
    }
}
