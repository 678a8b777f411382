// A field of a job file: a tag byte, a length of two bytes, a body. Whether the field that is wanted stands at a place of plain bytes, where its body
// is, and where the next one starts.
ghost use Rattle.std.specs.Prelude.{◌≡◌};
ghost use Rattle.meaning.specs.File.{field_at, field_next};

use numbers::two_bytes;
use records::{Body, Field, Refusal};

// The field at a place of plain bytes. No place wraps: the start is looked for by what is left before the end.
#[tactic(auto, using(std::proofs::lemmas::Bool::Decides::nat_tests), unfolding(meaning::specs::File::field_at, meaning::specs::File::field_verdict))]
pub fn field_at(bytes: &[u8], place: usize, tag: u8, length: usize) -> Field
    ensures { result ≡ field_at bytes.now place tag length }
{
    if bytes.len() < 3 || bytes.len() - 3 < place {
        return Err(Refusal { number: 1, place });
    }
    let found = bytes[place];
    let told = two_bytes(bytes, place + 1) as usize;
    if found != tag {
        return Err(Refusal { number: 2, place });
    }
    if told != length {
        return Err(Refusal { number: 3, place });
    }
    let start = place + 3;
    if bytes.len() - start < length {
        return Err(Refusal { number: 1, place });
    }
    Ok(Body {
        start,
        next: start + length,
    })
}

// The place past the field at a place of plain bytes; a refusal leaves the place as it is.
pub(crate) fn past_at(bytes: &[u8], place: usize, tag: u8, length: usize) -> usize
    ensures { result ≡ field_next (field_at bytes.now place tag length) place }
{
    match field_at(bytes, place, tag, length) {
        Ok(Body { next, .. }) => next,
        Err(_) => place,
    }
}
