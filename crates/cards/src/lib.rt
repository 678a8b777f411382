// Cards: a job as a text that a person types and reads. The face: the card of a job file, put into lent room, for both editions; the file that a card makes;
// and on which line and in which column of it a byte stands.
#![tactic(auto)]

mod filing;
mod hexadecimal;
mod lines;
mod making;
mod moves;
mod names;
mod numerals;
mod optional;
mod places;
mod printed;
mod reading;
mod taking;
mod written;

pub use making::job_of_card;
pub use places::{column_of, line_of};
pub use printed::{card_of, card_of_second};
