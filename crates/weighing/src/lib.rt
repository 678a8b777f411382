// Readings weighed into totals; balance is not asked. The face: the total of one object, the sum of the squared readings, and that of the squared
// totals. Neighbours ask besides for the tests of the two slices of a job and of the range of its readings, and for all totals from the words of its
// blocks.
#![tactic(auto)]

mod adding;
mod readings;
mod squares;
mod totals;
mod weighable;

pub use adding::weigh;
pub use readings::{blocks_refusal, reach_refusal, slices_refusal};
pub use squares::sum_of_squares;
pub use totals::{sum_of_squared_totals, total};
