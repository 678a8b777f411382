// The spread that a sheet's text claims, as the calls that check a sheet take it.
ghost use Rattle.std.specs.Prelude.{◌≡◌};
ghost use Rattle.meaning.specs.SheetText.{spread_claimed, claimed_spread};

use arithmetic::value_from;
use records::{SheetSpread, Spread};

// The claimed spread: none where the text says so with no degrees of freedom. Its f64 is that of the hundredths, the one rounded quotient.
#[tactic(auto, using(crate::proofs::claimed::Spreads::float_of_claimed), unfolding(meaning::specs::SheetText::claimed_spread))]
pub fn claimed_spread(spread: SheetSpread) -> Option<Spread>
    ensures { result ≡ claimed_spread spread }
{
    if spread.hundredths.is_none() && spread.freedom == 0 {
        return None;
    }
    let hundredths = spread_claimed(spread.hundredths);
    let value = value_from(hundredths, 100, 0, 0);
    Some(Spread {
        value: value.value,
        freedom: spread.freedom,
    })
}

// The claimed hundredths, or -100 where they are right for no job.
fn spread_claimed(hundredths: Option<u64>) -> i64
    ensures { result ≡ spread_claimed hundredths }
{
    match hundredths {
        None => -100,
        Some(some) if some < 9007199254740992 => some as i64,
        Some(_) => -100,
    }
}
