// The restraint of a job: its set is tested against the objects, and its accepted sum against the range.
ghost use Rattle.std.specs.Prelude.{◌≡◌};
ghost use Rattle.laws.specs.Fits.{Fits};
ghost use Rattle.meaning.specs.Refusals.{restraint};

use design::objects;
use records::{Head, Refusal, Verdict};
use words::ones;

// The largest accepted sum, on either side of 0.
const SUM_LIMIT: i64 = 1000000000000;

// The restraint set is not empty and has no bit at v or above, and the sum is in its range; then, that it has two objects at least.
#[tactic(auto, using(std::proofs::lemmas::Grind::common_steps, crate::proofs::Restrained::too_few, crate::proofs::Restrained::enough))]
pub(crate) fn restraint_refusal(head: Head, set: u64, sum: i64) -> Verdict
    requires { Fits head }
    ensures { result ≡ restraint head set sum }
{
    if set == 0 || set >> objects(head) != 0 {
        return Err(Refusal {
            number: 7,
            place: 0,
        });
    }
    if !(-SUM_LIMIT..=SUM_LIMIT).contains(&sum) {
        return Err(Refusal {
            number: 7,
            place: 0,
        });
    }
    if ones(set) < 2 {
        return Err(Refusal {
            number: 11,
            place: 0,
        });
    }
    Ok(())
}
