// A job file as a whole, refused in the request's order. The face: what an accepted file holds, and all that follows from it, worked out into lent room,
// for both editions; a file moved from one edition to the other; a sheet checked against a file; and the spread of several files pooled.
#![tactic(auto)]

mod moving;
mod places;
mod pooling;
mod reading;
mod second;
mod sheet;
mod solving;

pub use moving::{to_first, to_second};
pub use pooling::{Sums, pool};
pub use reading::read;
pub use second::{read_second, set_second, solve_second};
pub use sheet::{check_file, check_second};
pub use solving::solve;
