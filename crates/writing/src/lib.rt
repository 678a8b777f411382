// A job's file written from its parts. The face: `write` for the first edition, `write_second` for the second, with or without names;
// neighbours put the start of a field and the field of a restraint by themselves.
#![tactic(auto)]

mod encoding;
mod file;
mod second;
mod writable;

pub use encoding::{put_restraint, put_start};
pub use file::write;
pub use second::write_second;
