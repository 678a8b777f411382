// Sets of blocks in groups. The face: the verdict on any blocks with a group number for each object, which are partially balanced or not, and the
// grouped set that comes from a design by replacing every object by the members of its group.
#![tactic(auto)]

mod base;
mod judging;
mod labels;
mod lists;

pub use base::group_base;
pub use judging::grouped;
