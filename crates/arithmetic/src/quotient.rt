// The one rounded f64 of a fraction, and the making of a Value. All are total: outside the exact range the f64 is 0.0. A refused value is 0 over 0,
// made so; no other caller goes there.
ghost use Rattle.std.specs.Prelude.{◌≡◌, true, pos, nat_abs};
ghost use Rattle.meaning.specs.Publishing.{float};
ghost use Rattle.arithmetic.specs.Quotient.{exact, quotient_of, value_from};

use records::Value;

// Every whole number below it is an f64 exactly: 2 to the power 53.
const EXACT: u64 = 9007199254740992;

// numerator / denominator as an f64: each cast is exact, so the fraction is rounded once.
pub(crate) fn quotient(numerator: i64, denominator: u64) -> f64
    ensures { result ≡ quotient_of numerator denominator }
{
    if is_exact(numerator, denominator) {
        divided(numerator, denominator)
    } else {
        0.0
    }
}

// The same of a numerator from 0 on: one that is no i64 is outside the exact range.
pub(crate) fn unsigned_quotient(numerator: u64, denominator: u64) -> f64
    ensures { result ≡ quotient_of (pos numerator) denominator }
{
    match i64::try_from(numerator) {
        Ok(numerator) => quotient(numerator, denominator),
        Err(_) => 0.0,
    }
}

// A fraction with its published hundredths and its f64, and a variance factor over the same denominator with its own. Every Value is made here.
pub fn value_from(numerator: i64, denominator: u64, hundredths: i64, factor: u64) -> Value
    ensures { result ≡ value_from numerator denominator hundredths factor }
{
    let value = quotient(numerator, denominator);
    let factor_value = unsigned_quotient(factor, denominator);
    Value {
        numerator,
        denominator,
        hundredths,
        value,
        factor,
        factor_value,
    }
}

// Whether both numbers are f64s exactly, and the denominator is not 0.
#[tactic(auto, unfolding(crate::specs::Quotient::exact))]
pub(crate) fn is_exact(numerator: i64, denominator: u64) -> bool
    ensures { result ≡ exact numerator denominator }
{
    size(numerator) < EXACT && (1..EXACT).contains(&denominator)
}

// The two casts and the one division. No other place casts to an f64.
fn divided(numerator: i64, denominator: u64) -> f64
    requires { exact numerator denominator ≡ true }
    ensures { result ≡ float numerator denominator }
{
    numerator as f64 / denominator as f64
}

// The size of x, which of the least i64 is no i64.
pub fn size(x: i64) -> u64
    ensures { result ≡ nat_abs x }
{
    x.unsigned_abs()
}
