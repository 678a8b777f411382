// The values of a job: all numerators into lent room, or one object's Value.
ghost use Rattle.std.specs.Prelude.{◌≡◌, ◌^◌, ◌<◌, ◌≤◌, nat_abs, length};
ghost use Rattle.algebra.specs.Buffers.{over};
ghost use Rattle.meaning.specs.Analysis.{members, denominator};
ghost use Rattle.meaning.specs.Refusals.{sum_limit};
ghost use Rattle.meaning.specs.Calls.{values_verdict, values_after, value_answer};
ghost use Rattle.analysis.specs.Worked.{total_at, Totalled, Held, over_set, numerator_in, factor_in};

use crate::publishing::column;
use crate::whole::analyse;
use arithmetic::value_from;
use design::objects;
use records::{Head, ObjectValue, Refusal, Verdict};
use verdicts::{is_refused, no_value};
use weighing::blocks_refusal;
use words::{holds, lowest, ones, without_lowest};

// The numerators of all objects.
pub fn values(
    head: Head,
    blocks: &[u8],
    readings: &[i32],
    set: u64,
    sum: i64,
    values: &mut [i64],
) -> Verdict
    ensures value { result ≡ values_verdict head blocks.now readings.now set sum (length values.old) }
    ensures values_after { values.new ≡ values_after head blocks.now readings.now set sum values.old }
{
    let mut word_room = [0u64; 2600];
    let mut deviation_room = [0i64; 1300];
    let solved = analyse(
        head,
        blocks,
        readings,
        set,
        sum,
        &mut word_room,
        values,
        &mut deviation_room,
    );
    solved.verdict
}

// The value of one object, with its published hundredths, its f64 and its variance factor.
pub fn value_of(
    head: Head,
    blocks: &[u8],
    readings: &[i32],
    set: u64,
    sum: i64,
    object: usize,
) -> ObjectValue
    ensures { result ≡ value_answer head blocks.now readings.now set sum object }
{
    let tested = blocks_refusal(head, blocks, readings);
    // A refusal hands back zeros beside its verdict.
    if is_refused(tested) {
        return no_value(tested);
    }
    if objects(head) <= object {
        return no_value(Err(Refusal {
            number: 5,
            place: object,
        }));
    }
    let mut words = [0u64; 2600];
    let mut values = [0i64; 50];
    let mut deviations = [0i64; 1300];
    let solved = analyse(
        head,
        blocks,
        readings,
        set,
        sum,
        &mut words,
        &mut values,
        &mut deviations,
    );
    let verdict = solved.verdict;
    if is_refused(verdict) {
        return no_value(verdict);
    }
    let column = column(&values, solved.denominator, set);
    let factor = factor_of(set, object);
    let value = value_from(values[object], solved.denominator, column[object], factor);
    ObjectValue {
        verdict: Ok(()),
        value,
    }
}

// The variance factor of an object, over the denominator of its value: t - 1 where the restraint set holds it, t + 1 where it does not.
#[tactic(auto, using(crate::proofs::values::Ones::few, crate::proofs::values::Ones::some))]
pub(crate) fn factor_of(set: u64, object: usize) -> u64
    ensures { result ≡ factor_in set object }
{
    let t = ones(set);
    if holds(set, object) == 1 {
        t - 1
    } else {
        t + 1
    }
}

// Lays the numerator of every object into `values`, and hands back their denominator. t is how many objects the restraint set has.
pub(crate) fn fill_values(
    totals: &[i64; 50],
    v: usize,
    set: u64,
    vbeta: u64,
    sum: i64,
    values: &mut [i64],
) -> u64
    requires totalled { Totalled totals.now v }
    requires v_in_bounds { (v ≤ length values.old) × (set < 2 ^ v) × (vbeta ≤ 2600) × (nat_abs sum ≤ sum_limit) }
    ensures value { result ≡ denominator (members v set) vbeta }
    ensures values_after { values.new ≡ over v (numerator_in (total_at totals.now) v set vbeta sum) values.old }
{
    let t = ones(set);
    let members = t as i64;
    let over_set = set_sum(totals, set);
    let lifted = vbeta as i64 * sum;
    // A total is read and a value written at one place, so the loop goes by the place.
    for i in 0..v {
        values[i] = members * totals[i] - over_set + lifted;
    }
    t * vbeta
}

// The totals over the objects of a set, added: over the restraint set it is S. Only its own objects are walked, lowest first.
pub(crate) fn set_sum(totals: &[i64; 50], set: u64) -> i64
    requires { Held totals.now set }
    ensures { result ≡ over_set set (total_at totals.now) }
{
    let mut sum: i64 = 0;
    let mut rest = set;
    while rest != 0 {
        let i = lowest(rest);
        let total = totals[i];
        sum += total;
        rest = without_lowest(rest);
    }
    sum
}
