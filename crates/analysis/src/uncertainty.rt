// The standard uncertainty of an object: from the variance factor of its value, and from the spread of the job.
ghost use Rattle.std.specs.Prelude.{◌≡◌};
ghost use Rattle.arithmetic.specs.Uncertainties.{uncertainty_in};
ghost use Rattle.meaning.specs.Certificate.{uncertainty_answer};
ghost use Rattle.meaning.specs.Wide.{value};
ghost use Rattle.analysis.specs.Worked.{factor_in};

use crate::spread::spread;
use crate::values::{factor_of, value_of};
use arithmetic::uncertainty_from;
use records::{Head, ObjectUncertainty, Spreading, Uncertainty};
use verdicts::is_refused;

// The standard uncertainty of one object. What is refused is what is refused of its value.
pub fn uncertainty_of(
    head: Head,
    blocks: &[u8],
    readings: &[i32],
    set: u64,
    sum: i64,
    object: usize,
) -> ObjectUncertainty
    ensures { result ≡ uncertainty_answer head blocks.now readings.now set sum object }
{
    let valued = value_of(head, blocks, readings, set, sum, object);
    let verdict = valued.verdict;
    // A refusal hands back zeros beside its verdict.
    if is_refused(verdict) {
        return ObjectUncertainty {
            verdict,
            uncertainty: None,
        };
    }
    let value = valued.value;
    let measured = spread(head, blocks, readings);
    let spreading = measured.spreading;
    let q = spreading.q;
    let uncertainty = uncertainty_from(
        q,
        value.denominator,
        spreading.vbeta,
        spreading.freedom,
        value.factor,
    );
    ObjectUncertainty {
        verdict: Ok(()),
        uncertainty,
    }
}

// The standard uncertainty of an object of a job that was worked out: from its spread, the denominator of its values and the restraint set.
pub fn uncertainty_in(
    spreading: Spreading,
    denominator: u64,
    set: u64,
    object: usize,
) -> Option<Uncertainty>
    ensures { result ≡ uncertainty_in (value spreading.q) denominator spreading.vbeta spreading.freedom (factor_in set object) }
{
    let q = spreading.q;
    let freedom = spreading.freedom;
    let factor = factor_of(set, object);
    uncertainty_from(q, denominator, spreading.vbeta, freedom, factor)
}
