// The listing and the certificate of a job file. The face: either text of any byte string, put into lent room, read as a file of the first edition or of
// the second. Neighbours ask besides for the line of a refusal.
#![tactic(auto)]

mod certified;
mod certifying;
mod columns;
mod lines;
mod second;
mod text;
mod whole;

pub use certified::{certificate, certificate_second};
pub use lines::put_refused;
pub use second::listing_second;
pub use whole::listing;
