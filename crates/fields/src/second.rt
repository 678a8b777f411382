// What the second edition of the job file adds to the four fields: the edition field before them, and the optional fields after them.
ghost use Rattle.std.specs.Prelude.{◌≡◌, eqb, length, not, ◌||◌};
ghost use Rattle.meaning.specs.Edition2.{edition, names_tag, optional_at, optional_verdict, optionals};

use crate::framing::field_at;
use crate::places::end_at;
use numbers::{byte, two_bytes};
use records::{Refusal, Verdict};

// The edition field: its own tests, then its body, at that byte.
#[tactic(auto, using(std::proofs::lemmas::Bool::Decides::nat_tests, crate::proofs::second::Answers::edition_is))]
pub fn edition_refusal(bytes: &[u8]) -> Verdict
    ensures { result ≡ edition bytes.now }
{
    field_at(bytes, 0, 16, 1)?;
    if byte(bytes, 3) != 2 {
        return Err(Refusal {
            number: 12,
            place: 3,
        });
    }
    Ok(())
}

// Where the four fields end, which start after the edition field: by their sizes, or where the bytes end before that.
pub fn four_end(bytes: &[u8]) -> usize
    ensures { result ≡ optional_at bytes.now }
{
    if bytes.len() < 4 {
        return 4;
    }
    bytes.len().min(4 + end_at(&bytes[4..]))
}

// The optional fields from a place to the end of the bytes, each tag above the one before it; names are of so many bytes.
pub fn optional_refusal(bytes: &[u8], start: usize, names: usize) -> Verdict
    ensures { result ≡ optionals (length bytes.now) bytes.now names names_tag start }
{
    // No count: it goes by the lengths that stand in the fields.
    let mut place = start;
    let mut least: usize = 128;
    while place < bytes.len() {
        optional_at(bytes, place, least, names)?;
        least = byte(bytes, place) as usize + 1;
        place = place + 3 + two_bytes(bytes, place + 1) as usize;
    }
    Ok(())
}

// One optional field, whose tag is to be at least `least`: its start, its tag, the length of names, its body.
#[tactic(auto, using(std::proofs::lemmas::Bool::Decides::nat_tests), unfolding(meaning::specs::Edition2::optional_verdict))]
fn optional_at(bytes: &[u8], place: usize, least: usize, names: usize) -> Verdict
    ensures { result ≡ optional_verdict bytes.now names least place }
{
    if bytes.len() < 3 || bytes.len() - 3 < place {
        return Err(Refusal { number: 1, place });
    }
    let found = bytes[place] as usize;
    let told = two_bytes(bytes, place + 1) as usize;
    if found < least {
        return Err(Refusal { number: 2, place });
    }
    if misnamed(found, told, names) {
        return Err(Refusal { number: 3, place });
    }
    if bytes.len() - 3 - place < told {
        return Err(Refusal { number: 1, place });
    }
    Ok(())
}

// Names that are not of the length that is asked for.
fn misnamed(tag: usize, told: usize, names: usize) -> bool
    ensures { result ≡ not (not (eqb tag names_tag) || eqb told names) }
{
    tag == 128 && told != names
}
