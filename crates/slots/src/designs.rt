// What calls on designs answer: a judgement, a pair table.
ghost use Rattle.std.specs.Prelude.{◌≡◌};
ghost use Rattle.slots.specs.Told.{told};
ghost use Rattle.slots.specs.Answers.{judged_call, judged_laid, table_call, table_words};

use crate::arrays::parameter_slots;
use crate::laying::{lay, lay_entries};
use crate::rooms::with_room;
use crate::telling::told;
use records::{Judged, Verdict};

// A judgement.
#[tactic(auto, unfolding(crate::specs::Answers::judged_call))]
pub fn lay_judged(judged: Judged, answer: &mut [u64]) -> u64
    ensures value { result ≡ told (judged_call judged answer.old) }
    ensures answer_after { answer.new ≡ judged_laid judged answer.old }
{
    let verdict = with_room(judged.verdict, answer.len(), 6);
    lay(verdict, &parameter_slots(judged.parameters), answer);
    told(verdict)
}

// A pair table, under the verdict of its block list.
#[tactic(auto, unfolding(crate::specs::Answers::table_call))]
pub fn lay_table(tested: Verdict, table: &[[u64; 50]; 50], lent: &mut [u64]) -> u64
    ensures value { result ≡ told (table_call tested lent.old) }
    ensures lent_after { lent.new ≡ table_words tested table.now lent.old }
{
    let verdict = with_room(tested, lent.len(), 2500);
    lay_entries(verdict, table, lent);
    told(verdict)
}
