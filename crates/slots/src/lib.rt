// What a call from C hands back, since a program in C gets back numbers only: its verdict as one number, and its answer in lent slots. hosts/bench.h
// says what stands in each. The face: a verdict told, and followed by a test for room; and for each answer of a direct call, `lay_..`, which asks for its
// slots, lays them, and tells the verdict.
#![tactic(auto)]

mod arrays;
mod designs;
mod files;
mod groups;
mod jobs;
mod laying;
mod pools;
mod rooms;
mod sheets;
mod telling;

pub use crate::designs::{lay_judged, lay_table};
pub use crate::files::{lay_field, lay_listed, lay_read, lay_second, lay_written};
pub use crate::groups::{lay_group_set, lay_grouped};
pub use crate::jobs::{
    lay_deviation, lay_solved, lay_spread, lay_sum, lay_total, lay_uncertainty, lay_value,
};
pub use crate::pools::{lay_pooled, told_at};
pub use crate::rooms::{solved_room, with_room};
pub use crate::sheets::lay_checked;
pub use crate::telling::told;
