// Practice: readings from weights whose true values are known. The face: `practice` for the readings, `practice_file` for the file of a whole practice
// job.
#![tactic(auto)]

mod file;
mod generator;
mod known;
mod readings;

pub use file::practice_file;
pub use readings::practice;
