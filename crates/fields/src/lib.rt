// The fields of a job file. The face: a reader that goes from field to field, and the field at a place of plain bytes. Neighbours ask besides for the
// verdict on the four fields, and for what stands in them; and for what the second edition has around them.
#![tactic(auto)]

mod contents;
mod framing;
mod order;
mod places;
mod reader;
mod second;

pub use contents::held;
pub use framing::field_at;
pub use order::fields_refusal;
pub use reader::{Reader, field, past, reader_at};
pub use second::{edition_refusal, four_end, optional_refusal};
