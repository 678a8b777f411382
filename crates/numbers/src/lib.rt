// Bytes as numbers, high byte first, for any slice and any place: what stands past the end reads as 0. The face: numbers of one, two and eight bytes,
// a signed one of eight, and a row of signed ones of four, which the readings of a file are.
#![tactic(auto)]

mod row;
mod signed;
mod unsigned;

pub use row::readings;
pub use signed::signed_64;
pub use unsigned::{byte, eight_bytes, two_bytes};
