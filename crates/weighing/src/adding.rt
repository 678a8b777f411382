// The totals from the words of the blocks: the readings are walked once, each added to the objects of its own block.
ghost use Rattle.std.specs.Prelude.{◌≡◌, ◌+◌, ◌*◌, ◌<◌, ◌≤◌, pos, nat_abs, length, get_or};
ghost use Rattle.algebra.specs.Ranges.{sum_ℕ};
ghost use Rattle.algebra.specs.Buffers.{over};
ghost use Rattle.laws.specs.Limits.{total_limit};
ghost use Rattle.meaning.specs.Analysis.{reading};
ghost use Rattle.meaning.specs.Refusals.{reading_limit};
ghost use Rattle.meaning.specs.Wide.{wide};
ghost use Rattle.weighing.specs.Verdicts.{weigh_answer, weigh_after};
ghost use Rattle.weighing.specs.Developed.{total_in, added, block_added, Weighed, Within, Room};

use crate::weighable::weighing_refusal;
use arithmetic::add_square;
use design::objects;
use records::{Head, SquareSum, Wide};
use verdicts::{is_refused, no_sum};
use words::{lowest, without_lowest};

// Lays T(0) .. T(v - 1) into `totals`, from two words a block and a reading a block, and hands back the sum of their squares. Any words that name
// objects of the design alone will do: whether they are a development is not asked.
pub fn weigh(head: Head, words: &[u64], readings: &[i32], totals: &mut [i64]) -> SquareSum
    ensures value { result ≡ weigh_answer head words.now readings.now totals.old }
    ensures totals_after { totals.new ≡ weigh_after head words.now readings.now totals.old }
{
    let tested = weighing_refusal(head, words, readings, totals.len());
    // A refusal hands back zeros beside its verdict.
    if is_refused(tested) {
        return no_sum(tested);
    }
    let v = objects(head);
    fill(words, readings, head.m * head.n, v, totals);
    let sum = squared_totals(totals, v);
    SquareSum {
        verdict: Ok(()),
        sum,
    }
}

// Lays T(0) .. T(v - 1) into `totals`: the readings are walked once, each added to the objects of its own block. A block has two words and one reading,
// so the loop goes by its number.
fn fill(words: &[u64], readings: &[i32], b: usize, v: usize, totals: &mut [i64])
    requires weighed { Weighed words.now readings.now b }
    requires within { Within words.now b v }
    requires v_in_bounds { v ≤ length totals.old }
    ensures { totals.new ≡ over v (total_in words.now readings.now b) totals.old }
{
    totals[..v].fill(0);
    for k in 0..b {
        add_reading(words, readings, k, totals);
    }
}

// Adds the reading of block k to the totals of its left objects, and takes it from those of its right ones.
fn add_reading(words: &[u64], readings: &[i32], k: usize, totals: &mut [i64])
    requires k_in_bounds { (2 * k + 1 < length words.now) × (k < length readings.now) × (nat_abs (reading readings.now k) ≤ reading_limit) }
    requires room { (Room totals.old (get_or words.now (2 * k) 0) (total_limit + reading_limit))
        × (Room totals.old (get_or words.now (2 * k + 1) 0) total_limit) }
    ensures { totals.new ≡ block_added words.now readings.now k totals.old }
{
    let left = words[2 * k];
    let right = words[2 * k + 1];
    let y = i64::from(readings[k]);
    add_to(left, y, totals);
    add_to(right, -y, totals);
}

// Adds y to the total of every object of a word.
fn add_to(word: u64, y: i64, totals: &mut [i64])
    requires room { Room totals.old word (total_limit + reading_limit) }
    requires y_bound { nat_abs y ≤ reading_limit }
    ensures { totals.new ≡ added word y totals.old }
{
    let mut rest = word;
    while rest != 0 {
        totals[lowest(rest)] += y;
        rest = without_lowest(rest);
    }
}

// The sum of the squares of the first v totals.
fn squared_totals(totals: &[i64], v: usize) -> Wide
    requires { v ≤ length totals.now }
    ensures { result ≡ wide (sum_ℕ v (λ i. nat_abs (get_or totals.now i (pos 0)) * nat_abs (get_or totals.now i (pos 0)))) }
{
    let mut sum = Wide { high: 0, low: 0 };
    for total in &totals[..v] {
        sum = add_square(sum, total.unsigned_abs());
    }
    sum
}
