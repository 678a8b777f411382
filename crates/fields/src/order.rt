// The four fields of a job file, taken in turn by one reader: their refusals in file order, the sizes right after the first, the end of the file last.
ghost use Rattle.std.specs.Prelude.{eqb, length, cond, ◌≡◌};
ghost use Rattle.meaning.specs.Refusals.{accepted, test, ◌⨾◌, sizes};
ghost use Rattle.meaning.specs.File.{field_says, head_of, fields};

use crate::contents::head_of;
use crate::places::body_length;
use crate::reader::{field, past, reader_at};
use design::sized;
use records::{Field, Refusal, Verdict};

// The four fields and the end of the file; the sizes right after the first.
pub fn fields_refusal(bytes: &[u8]) -> Verdict
    ensures { result ≡ fields bytes.now }
{
    let mut reader = reader_at(bytes, 0);
    for tag in 1..=4 {
        let length = body_length(bytes, tag);
        tested(bytes, tag, field(reader, tag, length))?;
        reader = past(reader, tag, length);
    }
    ended(bytes, reader.place)
}

// What a field that was looked for comes to: its refusal, and after the first the sizes'.
fn tested(bytes: &[u8], tag: u8, found: Field) -> Verdict
    ensures { result ≡ field_says found ⨾ cond (eqb tag 1) (sizes (head_of bytes.now)) accepted }
{
    found?;
    if tag != 1 || sized(head_of(bytes)) {
        return Ok(());
    }
    Err(Refusal {
        number: 4,
        place: 0,
    })
}

// The end of the file: no byte stands after the last field.
fn ended(bytes: &[u8], place: usize) -> Verdict
    ensures { result ≡ test (eqb place (length bytes.now)) 9 place }
{
    if place != bytes.len() {
        return Err(Refusal { number: 9, place });
    }
    Ok(())
}
