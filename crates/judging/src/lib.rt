// A whole job judged: its sizes and slices, its blocks, its balance, its restraint, its readings, in the request's order. The face: why a job is
// refused. A neighbour asks besides for the parameters of its design.
#![tactic(auto)]

mod order;
mod restraint;

pub use order::{judged_job, refusal};
