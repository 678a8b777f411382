// What a call that pools jobs answers: a spread, and beside a refusal's number the index of the job that it speaks of.
ghost use Rattle.std.specs.Prelude.{◌≡◌};
ghost use Rattle.slots.specs.Pools.{told_at, pooled_told, pooled_laid, pooled_real};

use crate::arrays::{spread_value, spreading_slots};
use crate::laying::lay;
use crate::rooms::with_room;
use records::{Pooled, Refusal, Verdict};

// A verdict with an index as one number: its number, from the ninth bit on the index, from the seventeenth on the place. 0 where it accepts.
pub fn told_at(verdict: Verdict, index: usize) -> u64
    ensures { result ≡ told_at verdict index }
{
    match verdict {
        Ok(()) => 0,
        Err(Refusal { number, place }) => {
            let job = index as u64 % 256;
            let kept = place as u64 % 281474976710656;
            u64::from(number) + 256 * job + 65536 * kept
        }
    }
}

// A pooled spread.
#[tactic(auto, unfolding(crate::specs::Pools::pooled_call))]
pub fn lay_pooled(found: Pooled, answer: &mut [u64], real: &mut [f64]) -> u64
    ensures value { result ≡ pooled_told found answer.old real.old }
    ensures answer_after { answer.new ≡ pooled_laid found answer.old real.old }
    ensures real_after { real.new ≡ pooled_real found answer.old real.old }
{
    let answer_tested = with_room(found.verdict, answer.len(), 6);
    let verdict = with_room(answer_tested, real.len(), 1);
    lay(verdict, &spreading_slots(found.spreading), answer);
    lay(verdict, &[spread_value(found.spreading.spread)], real);
    told_at(verdict, found.index)
}
