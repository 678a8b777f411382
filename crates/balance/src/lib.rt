// Balance. The face: the two pair tables, the verdict on a design with its parameters, which reads them, and the same verdict by the differences of the
// initial blocks. Neighbours ask besides for the tables that the words of any blocks give.
#![tactic(auto)]

mod counting;
mod differences;
mod tables;
mod verdict;

pub use counting::{count_company, count_opposition};
pub use differences::judge_by_differences;
pub use tables::{company, opposition};
pub use verdict::judge;
