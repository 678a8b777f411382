// A sheet's claims against hundredths and a spread: object by object first, then the claimed spread.
ghost use Rattle.std.specs.Prelude.{◌≡◌, length};
ghost use Rattle.meaning.specs.Sheet.{claim, same_spread, differs_at, against, checked_under};

use records::{Agreement, Checked, Spread, Verdict};

// What a sheet answers: the first object whose claim differs, or past them all for the spread. Where hundredths end a claim is to be 0.
#[tactic(auto, unfolding(meaning::specs::Sheet::against))]
pub fn compare(
    hundredths: &[i64],
    spread: Option<Spread>,
    claims: &[i64],
    claimed: Option<Spread>,
) -> Checked
    ensures { result ≡ against (length claims.now) (claim hundredths.now) spread claims.now claimed }
{
    let v = claims.len();
    let at = first_difference(hundredths, claims);
    if at < v {
        return Ok(Agreement::Differs(at));
    }
    if same_spread(claimed, spread) {
        return Ok(Agreement::Agrees);
    }
    Ok(Agreement::Differs(v))
}

// The first claim that differs, or how many there are where none does.
fn first_difference(hundredths: &[i64], claims: &[i64]) -> usize
    ensures { result ≡ differs_at (length claims.now) (claim hundredths.now) claims.now }
{
    for (i, claim) in claims.iter().enumerate() {
        if *claim != hundredths.get(i).copied().unwrap_or(0) {
            return i;
        }
    }
    claims.len()
}

// Whether two spreads are the same: their f64s as numbers with the same degrees of freedom, or both none.
fn same_spread(claimed: Option<Spread>, spread: Option<Spread>) -> bool
    ensures { result ≡ same_spread claimed spread }
{
    // A spread has no `==` of its own: its f64s are compared as numbers.
    match (claimed, spread) {
        (None, None) => true,
        (Some(claimed), Some(spread)) => claimed.value == spread.value
            && claimed.freedom == spread.freedom,
        _ => false,
    }
}

// An answer under a verdict: a refusal keeps its number and place.
pub fn under(verdict: Verdict, checked: Checked) -> Checked
    ensures { result ≡ checked_under verdict checked }
{
    verdict.and(checked)
}
