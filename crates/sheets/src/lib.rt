// The text of another laboratory's sheet: its lines `value` and `spread` read into claims. The face: what is read of any byte string, the spread that it
// claims, whether two words are the same, and which number a word is.
#![tactic(auto)]

mod claimed;
mod lines;
mod numerals;
mod pieces;
mod sheet;
mod words;

pub use claimed::claimed_spread;
pub use numerals::{is_decimal, number, signed};
pub use pieces::same;
pub use sheet::read_sheet;
