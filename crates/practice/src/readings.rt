// The practice readings, block by block: from the words of the developed design, the true values, and the generator.
ghost use Rattle.std.specs.Prelude.{◌≡◌, ◌+◌, ◌*◌, ◌<◌, ◌≤◌, length};
ghost use Rattle.algebra.specs.Buffers.{over};
ghost use Rattle.meaning.specs.Practice.{state, width_limit, practice_verdict, practice_after};
ghost use Rattle.practice.specs.Drawn.{Known, between, reading_in};

use crate::generator::{noise_in, step};
use crate::known::practice_refusal;
use design::develop;
use records::{Head, Refusal, Verdict};
use words::holds;

// Lays the b practice readings into `readings`.
pub fn practice(
    head: Head,
    blocks: &[u8],
    truths: &[i32],
    start: u32,
    width: usize,
    readings: &mut [i32],
) -> Verdict
    ensures value { result ≡ practice_verdict head blocks.now truths.now width (length readings.old) }
    ensures readings_after { readings.new ≡ practice_after head blocks.now truths.now start width readings.old }
{
    practice_refusal(head, blocks, truths, width)?;
    let b = head.m * head.n;
    if readings.len() < b {
        return Err(Refusal {
            number: 10,
            place: 0,
        });
    }
    let mut words = [0u64; 2600];
    develop(head, blocks, &mut words)?;
    fill_readings(&words, truths, b, start, width, readings);
    Ok(())
}

// Lays the readings of b blocks into `readings`: the number that makes the noise is stepped once per block before use.
fn fill_readings(
    words: &[u64],
    truths: &[i32],
    b: usize,
    start: u32,
    width: usize,
    readings: &mut [i32],
)
    requires { (Known truths.now) × (width ≤ width_limit) × (2 * b ≤ length words.now) × (b ≤ length readings.old) }
    ensures { readings.new ≡ over b (λ k. reading_in words.now truths.now width (state start k) k)
        readings.old }
{
    let mut x = start;
    // A block has two words and one reading, so the loop goes by its number.
    for k in 0..b {
        x = step(x);
        readings[k] = reading_of(words, truths, width, x, k);
    }
}

// The reading of block k with the noise in x: the left sum of the true values less the right sum, plus noise.
fn reading_of(words: &[u64], truths: &[i32], width: usize, x: u32, k: usize) -> i32
    requires { (Known truths.now) × (width ≤ width_limit) × (2 * k + 1 < length words.now) }
    ensures { result ≡ reading_in words.now truths.now width x k }
{
    let left = words[2 * k];
    let right = words[2 * k + 1];
    let plain = sum_between(truths, left, right);
    let drawn = noise_in(x, width);
    (plain + drawn) as i32
}

// The true values over the objects of one word, less those over the objects of another.
pub(crate) fn sum_between(truths: &[i32], left: u64, right: u64) -> i64
    requires { Known truths.now }
    ensures { result ≡ between truths.now left right }
{
    let mut sum = 0;
    for (i, &truth) in truths.iter().enumerate() {
        let sign = holds(left, i) as i64 - holds(right, i) as i64;
        sum += sign * i64::from(truth);
    }
    sum
}
