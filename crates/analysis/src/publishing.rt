// The published hundredths. A member of the restraint set takes the hundredths at or below its value, and what they leave of 100·M is given out one
// each, to the largest parts first and the lowest object among equals; any other object takes the nearest. Parts are whole numbers over one denominator.
ghost use Rattle.std.specs.Prelude.{◌≡◌, cond, ◌&&◌, ◌||◌, ◌/◌, ◌<◌, eqb, ltb, length};
ghost use Rattle.meaning.specs.Analysis.{member};
ghost use Rattle.meaning.specs.Publishing.{rank};
ghost use Rattle.meaning.specs.Calls.{values_verdict, published_after};
ghost use Rattle.analysis.specs.Column.{part_at, parts_of, Small, parts_in, hundredths_by, column_of};

use crate::whole::analyse;
use arithmetic::{hundredths, hundredths_below, hundredths_part};
use design::objects;
use records::{Head, Refusal, Verdict};
use words::holds;

// The published hundredths of all objects of a job, into lent room.
pub fn published(
    head: Head,
    blocks: &[u8],
    readings: &[i32],
    set: u64,
    sum: i64,
    hundredths: &mut [i64],
) -> Verdict
    ensures value { result ≡ values_verdict head blocks.now readings.now set sum (length hundredths.old) }
    ensures hundredths_after { hundredths.new ≡ published_after head blocks.now readings.now set sum hundredths.old }
{
    let mut words = [0u64; 2600];
    let mut values = [0i64; 50];
    let mut deviations = [0i64; 1300];
    let solved = analyse(
        head,
        blocks,
        readings,
        set,
        sum,
        &mut words,
        &mut values,
        &mut deviations,
    );
    solved.verdict?;
    let v = objects(head);
    if hundredths.len() < v {
        return Err(Refusal {
            number: 10,
            place: 0,
        });
    }
    let column = column(&values, solved.denominator, set);
    hundredths[..v].copy_from_slice(&column[..v]);
    Ok(())
}

// The hundredths of 50 objects from their numerators, whole. Every published number is made here.
pub fn column(numerators: &[i64; 50], denominator: u64, set: u64) -> [i64; 50]
    ensures { result ≡ column_of numerators.now denominator set }
{
    let parts = parts_of(numerators, denominator);
    let shared = shared_out(&parts, denominator, set);
    let mut hundredths = [0i64; 50];
    for (i, &numerator) in numerators.iter().enumerate() {
        let own = rank_of(&parts, set, i);
        hundredths[i] = hundredths_at(numerator, denominator, set, i, own, shared);
    }
    hundredths
}

// The hundredths of one object: of a member those at or below, and one more where its rank is below what is shared out; else the nearest.
#[tactic(auto, using(crate::proofs::publishing::Serving::served))]
fn hundredths_at(
    numerator: i64,
    denominator: u64,
    set: u64,
    object: usize,
    own: u64,
    shared: u64,
) -> i64
    ensures { result ≡ hundredths_by numerator denominator (member set object) own shared }
{
    if holds(set, object) == 1 {
        hundredths_below(numerator, denominator) + i64::from(own < shared)
    } else {
        hundredths(numerator, denominator)
    }
}

// How far each object is above its hundredths, in parts of the denominator.
fn parts_of(numerators: &[i64; 50], denominator: u64) -> [u64; 50]
    ensures { result ≡ parts_of numerators.now denominator }
{
    let mut parts = [0u64; 50];
    for (i, &numerator) in numerators.iter().enumerate() {
        parts[i] = hundredths_part(numerator, denominator);
    }
    parts
}

// What is shared out: the members' parts, added, in whole hundredths.
fn shared_out(parts: &[u64; 50], denominator: u64, set: u64) -> u64
    requires { Small parts.now }
    ensures { result ≡ parts_in (part_at parts.now) set / denominator }
{
    if denominator == 0 {
        return 0;
    }
    parts_sum(parts, set) / denominator
}

// The members' parts, added.
fn parts_sum(parts: &[u64; 50], set: u64) -> u64
    requires { Small parts.now }
    ensures { result ≡ parts_in (part_at parts.now) set }
{
    let mut sum = 0;
    for (i, &part) in parts.iter().enumerate() {
        sum += holds(set, i) * part;
    }
    sum
}

// How many members are served before an object.
fn rank_of(parts: &[u64; 50], set: u64, object: usize) -> u64
    requires { object < 50 }
    ensures { result ≡ rank 50 set (part_at parts.now) object }
{
    let own = parts[object];
    let mut count = 0;
    for (i, &part) in parts.iter().enumerate() {
        count += holds(set, i) * goes_before(part, i, own, object);
    }
    count
}

// 1 where an object with this part is served before another: a larger part, or as large and the lower number.
fn goes_before(part: u64, i: usize, own: u64, object: usize) -> u64
    ensures { result ≡ cond (ltb own part || eqb part own && ltb i object) 1 0 }
{
    u64::from(own < part || part == own && i < object)
}
