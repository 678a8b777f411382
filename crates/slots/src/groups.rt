// What calls on blocks in groups answer: four counts, and the parameters of a grouped set.
ghost use Rattle.std.specs.Prelude.{◌≡◌};
ghost use Rattle.slots.specs.Told.{told};
ghost use Rattle.slots.specs.Groups.{count_slots, group_slots, grouped_call, grouped_laid, group_set_call, group_set_laid};

use crate::laying::lay;
use crate::rooms::with_room;
use crate::telling::told;
use records::{GroupCounts, GroupParameters, Grouped, GroupedSet};

// A verdict on blocks in groups.
#[tactic(auto, unfolding(crate::specs::Groups::grouped_call))]
pub fn lay_grouped(grouped: Grouped, answer: &mut [u64]) -> u64
    ensures value { result ≡ told (grouped_call grouped answer.old) }
    ensures answer_after { answer.new ≡ grouped_laid grouped answer.old }
{
    let verdict = with_room(grouped.verdict, answer.len(), 4);
    lay(verdict, &count_slots(grouped.counts), answer);
    told(verdict)
}

// A grouped set.
#[tactic(auto, unfolding(crate::specs::Groups::group_set_call))]
pub fn lay_group_set(set: GroupedSet, answer: &mut [u64]) -> u64
    ensures value { result ≡ told (group_set_call set answer.old) }
    ensures answer_after { answer.new ≡ group_set_laid set answer.old }
{
    let verdict = with_room(set.verdict, answer.len(), 8);
    lay(verdict, &group_slots(set.parameters), answer);
    told(verdict)
}

// The four counts as an array.
fn count_slots(counts: GroupCounts) -> [u64; 4]
    ensures { result ≡ count_slots counts }
{
    [counts.l11, counts.l21, counts.l12, counts.l22]
}

// The parameters of a grouped set as an array.
fn group_slots(parameters: GroupParameters) -> [u64; 8]
    ensures { result ≡ group_slots parameters }
{
    let counts = parameters.counts;
    [
        parameters.v,
        parameters.b,
        parameters.r,
        parameters.p,
        counts.l11,
        counts.l21,
        counts.l12,
        counts.l22,
    ]
}
