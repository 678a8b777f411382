// The spread from Q, v·beta and f: whole hundredths by a square root, and their f64.
ghost use Rattle.std.specs.Prelude.{◌≡◌, ◌^◌, ◌<◌};
ghost use Rattle.meaning.specs.Publishing.{spread_of};
ghost use Rattle.meaning.specs.Wide.{value};
ghost use Rattle.arithmetic.specs.Hundredths.{ranged, hundredths_from, spreading_from};

use crate::quotient::unsigned_quotient;
use crate::wide::{divide, root, times};
use records::{Spread, Spreading, Wide};

// The spread with all that it is made from.
pub fn spread_from(q: Wide, vbeta: u64, freedom: u64) -> Spreading
    ensures { result ≡ spreading_from q vbeta freedom }
{
    let hundredths = hundredths_from(q, vbeta, freedom);
    let spread = as_spread(hundredths, freedom);
    Spreading {
        q,
        vbeta,
        freedom,
        hundredths,
        spread,
    }
}

// The spread by its f64: none where there is no freedom.
fn as_spread(hundredths: u64, freedom: u64) -> Option<Spread>
    requires { hundredths < 2 ^ 53 }
    ensures { result ≡ spread_of hundredths freedom }
{
    if freedom == 0 {
        None
    } else {
        let value = unsigned_quotient(hundredths, 100);
        Some(Spread { value, freedom })
    }
}

// The whole hundredths: 0 with no freedom, and outside a range that every accepted job and 64 of them pooled keep. The largest k with k·k·d at most x is
// the root of x / d, cut.
fn hundredths_from(q: Wide, vbeta: u64, freedom: u64) -> u64
    ensures { result ≡ hundredths_from (value q) vbeta freedom }
{
    if freedom == 0 {
        return 0;
    }
    if is_ranged(q, vbeta, freedom) {
        let scaled = times(q, 10000);
        let part = divide(scaled, vbeta * freedom);
        root(part.quotient)
    } else {
        0
    }
}

// Whether the three numbers are in a range that every accepted job and 64 of them pooled keep.
#[tactic(auto, unfolding(crate::specs::Hundredths::ranged))]
pub(crate) fn is_ranged(q: Wide, vbeta: u64, freedom: u64) -> bool
    ensures { result ≡ ranged (value q) vbeta freedom }
{
    q.high < 524288 && (1..=2600).contains(&vbeta) && freedom <= 83200
}
