// What calls on readings and on whole jobs answer: a total, a sum of squares, a value, its standard uncertainty, a deviation, a spread, a job worked out.
ghost use Rattle.std.specs.Prelude.{◌≡◌};
ghost use Rattle.slots.specs.Told.{told};
ghost use Rattle.slots.specs.Answers.{total_call, total_signed, sum_call, sum_laid, value_call, value_signed, value_laid, value_real};
ghost use Rattle.slots.specs.Answers.{uncertainty_call, uncertainty_laid, uncertainty_real};
ghost use Rattle.slots.specs.Answers.{deviation_call, deviation_signed, deviation_laid};
ghost use Rattle.slots.specs.Answers.{spread_call, spread_laid, spread_real, solved_call, solved_laid, solved_real};

use crate::arrays::{solved_slots, spread_value, spreading_slots, stated_slots, stated_value};
use crate::laying::lay;
use crate::rooms::with_room;
use crate::telling::told;
use records::{
    BlockDeviation, JobSpread, ObjectTotal, ObjectUncertainty, ObjectValue, Solved, SquareSum,
};

// The total of one object.
#[tactic(auto, unfolding(crate::specs::Answers::total_call))]
pub fn lay_total(found: ObjectTotal, signed: &mut [i64]) -> u64
    ensures value { result ≡ told (total_call found signed.old) }
    ensures signed_after { signed.new ≡ total_signed found signed.old }
{
    let verdict = with_room(found.verdict, signed.len(), 1);
    lay(verdict, &[found.total], signed);
    told(verdict)
}

// A sum of squares, and Q, the high word first.
#[tactic(auto, unfolding(crate::specs::Answers::sum_call))]
pub fn lay_sum(found: SquareSum, answer: &mut [u64]) -> u64
    ensures value { result ≡ told (sum_call found answer.old) }
    ensures answer_after { answer.new ≡ sum_laid found answer.old }
{
    let verdict = with_room(found.verdict, answer.len(), 2);
    lay(verdict, &[found.sum.high, found.sum.low], answer);
    told(verdict)
}

// The value of one object.
#[tactic(auto, unfolding(crate::specs::Answers::value_call))]
pub fn lay_value(
    found: ObjectValue,
    signed: &mut [i64],
    answer: &mut [u64],
    real: &mut [f64],
) -> u64
    ensures value { result ≡ told (value_call found signed.old answer.old real.old) }
    ensures signed_after { signed.new ≡ value_signed found signed.old answer.old real.old }
    ensures answer_after { answer.new ≡ value_laid found signed.old answer.old real.old }
    ensures real_after { real.new ≡ value_real found signed.old answer.old real.old }
{
    let value = found.value;
    let signed_tested = with_room(found.verdict, signed.len(), 2);
    let answer_tested = with_room(signed_tested, answer.len(), 2);
    let verdict = with_room(answer_tested, real.len(), 2);
    lay(verdict, &[value.numerator, value.hundredths], signed);
    lay(verdict, &[value.denominator, value.factor], answer);
    lay(verdict, &[value.value, value.factor_value], real);
    told(verdict)
}

// The standard uncertainty of one object.
#[tactic(auto, unfolding(crate::specs::Answers::uncertainty_call))]
pub fn lay_uncertainty(found: ObjectUncertainty, answer: &mut [u64], real: &mut [f64]) -> u64
    ensures value { result ≡ told (uncertainty_call found answer.old real.old) }
    ensures answer_after { answer.new ≡ uncertainty_laid found answer.old real.old }
    ensures real_after { real.new ≡ uncertainty_real found answer.old real.old }
{
    let answer_tested = with_room(found.verdict, answer.len(), 2);
    let verdict = with_room(answer_tested, real.len(), 1);
    lay(verdict, &stated_slots(found.uncertainty), answer);
    lay(verdict, &[stated_value(found.uncertainty)], real);
    told(verdict)
}

// The deviation of one block.
#[tactic(auto, unfolding(crate::specs::Answers::deviation_call))]
pub fn lay_deviation(found: BlockDeviation, signed: &mut [i64], answer: &mut [u64]) -> u64
    ensures value { result ≡ told (deviation_call found signed.old answer.old) }
    ensures signed_after { signed.new ≡ deviation_signed found signed.old answer.old }
    ensures answer_after { answer.new ≡ deviation_laid found signed.old answer.old }
{
    let signed_tested = with_room(found.verdict, signed.len(), 1);
    let verdict = with_room(signed_tested, answer.len(), 1);
    lay(verdict, &[found.numerator], signed);
    lay(verdict, &[found.denominator], answer);
    told(verdict)
}

// The spread of a job, with all that it is made from.
#[tactic(auto, unfolding(crate::specs::Answers::spread_call))]
pub fn lay_spread(found: JobSpread, answer: &mut [u64], real: &mut [f64]) -> u64
    ensures value { result ≡ told (spread_call found answer.old real.old) }
    ensures answer_after { answer.new ≡ spread_laid found answer.old real.old }
    ensures real_after { real.new ≡ spread_real found answer.old real.old }
{
    let answer_tested = with_room(found.verdict, answer.len(), 6);
    let verdict = with_room(answer_tested, real.len(), 1);
    lay(verdict, &spreading_slots(found.spreading), answer);
    lay(verdict, &[spread_value(found.spreading.spread)], real);
    told(verdict)
}

// A job worked out.
#[tactic(auto, unfolding(crate::specs::Answers::solved_call))]
pub fn lay_solved(solved: Solved, answer: &mut [u64], real: &mut [f64]) -> u64
    ensures value { result ≡ told (solved_call solved answer.old real.old) }
    ensures answer_after { answer.new ≡ solved_laid solved answer.old real.old }
    ensures real_after { real.new ≡ solved_real solved answer.old real.old }
{
    let answer_tested = with_room(solved.verdict, answer.len(), 13);
    let verdict = with_room(answer_tested, real.len(), 1);
    lay(verdict, &solved_slots(solved), answer);
    lay(verdict, &[spread_value(solved.spreading.spread)], real);
    told(verdict)
}
