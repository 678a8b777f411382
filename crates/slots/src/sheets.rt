// What checking a sheet answers: whether it agrees, and where it differs.
ghost use Rattle.std.specs.Prelude.{◌≡◌};
ghost use Rattle.slots.specs.Told.{told};
ghost use Rattle.slots.specs.Sheets.{checked_slots, checked_call, checked_laid};

use crate::laying::lay;
use crate::rooms::with_room;
use crate::telling::told;
use records::{Agreement, Checked};

// A sheet that was checked: a difference is laid, and only a refusal is told.
#[tactic(auto, unfolding(crate::specs::Sheets::checked_call))]
pub fn lay_checked(checked: Checked, answer: &mut [u64]) -> u64
    ensures value { result ≡ told (checked_call checked answer.old) }
    ensures answer_after { answer.new ≡ checked_laid checked answer.old }
{
    let verdict = with_room(checked.and(Ok(())), answer.len(), 2);
    lay(verdict, &checked_slots(checked), answer);
    told(verdict)
}

// Whether it agrees, and where it differs.
fn checked_slots(checked: Checked) -> [u64; 2]
    ensures { result ≡ checked_slots checked }
{
    match checked {
        Ok(Agreement::Agrees) => [1, 0],
        Ok(Agreement::Differs(at)) => [0, at as u64],
        Err(_) => [0, 0],
    }
}
