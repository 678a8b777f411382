// The standard uncertainty from Q, t·v·beta, v·beta, f and the variance factor: whole hundredths by a square root that goes up, and their f64.
ghost use Rattle.std.specs.Prelude.{◌≡◌, ◌<◌, true};
ghost use Rattle.meaning.specs.Certificate.{uncertainty_hundredths};
ghost use Rattle.meaning.specs.Wide.{value};
ghost use Rattle.arithmetic.specs.Uncertainties.{stated, uncertainty_in};

use crate::quotient::unsigned_quotient;
use crate::spread::is_ranged;
use crate::wide::{at_most, divide, root, subtract, times};
use records::{Uncertainty, Wide};

// The standard uncertainty: none with no freedom, and outside a range that every accepted job keeps.
pub fn uncertainty_from(
    q: Wide,
    denominator: u64,
    vbeta: u64,
    freedom: u64,
    factor: u64,
) -> Option<Uncertainty>
    ensures { result ≡ uncertainty_in (value q) denominator vbeta freedom factor }
{
    if freedom == 0 {
        return None;
    }
    if is_stated(q, denominator, vbeta, freedom, factor) {
        let hundredths = hundredths_over(q, denominator, vbeta, freedom, factor);
        let value = unsigned_quotient(hundredths, 100);
        Some(Uncertainty { hundredths, value })
    } else {
        None
    }
}

// The least u with u·u·d at least x is one more than the root of (x - 1) / d, cut. Here x is 10,000·Q·factor; d does not fit half a word, so x is divided
// by t·v·beta·v·beta, and then by f.
fn hundredths_over(q: Wide, denominator: u64, vbeta: u64, freedom: u64, factor: u64) -> u64
    requires { (stated (value q) denominator vbeta freedom factor ≡ true) × (0 < freedom) }
    ensures { result ≡ uncertainty_hundredths (value q) denominator vbeta freedom factor }
{
    let scaled = times(q, 10000 * factor);
    if at_most(scaled, Wide { high: 0, low: 0 }) {
        return 0;
    }
    let less = subtract(scaled, Wide { high: 0, low: 1 });
    let first = divide(less, denominator * vbeta);
    let second = divide(first.quotient, freedom);
    root(second.quotient) + 1
}

// Whether the five numbers are in a range that every accepted job keeps.
#[tactic(auto, unfolding(crate::specs::Uncertainties::stated))]
fn is_stated(q: Wide, denominator: u64, vbeta: u64, freedom: u64, factor: u64) -> bool
    ensures { result ≡ stated (value q) denominator vbeta freedom factor }
{
    (1..=130000).contains(&denominator) && factor <= 51 && is_ranged(q, vbeta, freedom)
}
