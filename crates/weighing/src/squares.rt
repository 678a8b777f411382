// The sum of the squared readings of a job.
ghost use Rattle.std.specs.Prelude.{◌≡◌, ◌*◌, ◌≤◌, pos, nat_abs, length, get_or};
ghost use Rattle.algebra.specs.Ranges.{sum_ℕ};
ghost use Rattle.meaning.specs.Calls.{squared_readings_answer};
ghost use Rattle.meaning.specs.Wide.{wide};

use crate::readings::reach_refusal;
use arithmetic::add_square;
use design::sized;
use records::{Head, Refusal, SquareSum, Wide};
use verdicts::{is_refused, no_sum};

// The sum of the squared readings. It needs no blocks, and no balance.
pub fn sum_of_squares(head: Head, readings: &[i32]) -> SquareSum
    ensures { result ≡ squared_readings_answer head readings.now }
{
    if !sized(head) {
        return no_sum(Err(Refusal {
            number: 4,
            place: 0,
        }));
    }
    let m = head.m;
    let n = head.n;
    if readings.len() != m * n {
        return no_sum(Err(Refusal {
            number: 3,
            place: 0,
        }));
    }
    let reached = reach_refusal(readings);
    // A refusal hands back zeros beside its verdict.
    if is_refused(reached) {
        return no_sum(reached);
    }
    let sum = squared_readings(readings, m * n);
    SquareSum {
        verdict: Ok(()),
        sum,
    }
}

// The sum of the squares of the first b readings. Totals are i64 and have a function of their own: a generic one would need a law of the conversion.
fn squared_readings(readings: &[i32], b: usize) -> Wide
    requires { b ≤ length readings.now }
    ensures { result ≡ wide (sum_ℕ b (λ k. nat_abs (get_or readings.now k (pos 0)) * nat_abs (get_or readings.now k (pos 0)))) }
{
    let mut sum = Wide { high: 0, low: 0 };
    for y in &readings[..b] {
        sum = add_square(sum, u64::from(y.unsigned_abs()));
    }
    sum
}
