// The list of the initial blocks: why it is refused. A block is clean where every byte names an object of the design and none stands twice in it.
ghost use Rattle.std.specs.Prelude.{◌≡◌, ◌<◌, length, ltb};
ghost use Rattle.meaning.specs.Design.{occ};
ghost use Rattle.meaning.specs.Refusals.{in_range, offends, offender};
ghost use Rattle.meaning.specs.Calls.{design_verdict};
ghost use Rattle.laws.specs.Fits.{Fits};

use crate::sizes::{sized, with_fixed};
use records::{Head, Refusal, Verdict};

// Why a block list is refused, or that it is accepted: the sizes, then its length, then the first byte that offends.
#[tactic(auto, unfolding(meaning::specs::Calls::design_verdict))]
pub fn pairs_refusal(head: Head, blocks: &[u8]) -> Verdict
    ensures { result ≡ design_verdict head blocks.now }
{
    if !sized(head) {
        return Err(Refusal {
            number: 4,
            place: 0,
        });
    }
    let p = head.p;
    let m = head.m;
    if blocks.len() != 2 * p * m {
        return Err(Refusal {
            number: 3,
            place: 0,
        });
    }
    let at = offender(head, blocks);
    if at != blocks.len() {
        return Err(Refusal {
            number: 5,
            place: at,
        });
    }
    Ok(())
}

// Whether a byte names an object of the design.
fn in_range(head: Head, byte: u8) -> bool
    ensures { result ≡ in_range head byte }
{
    if byte == 255 {
        with_fixed(head)
    } else {
        usize::from(byte) < head.n
    }
}

// Whether a byte stands among some bytes.
pub fn stands_among(bytes: &[u8], byte: u8) -> bool
    ensures { result ≡ ltb 0 (occ byte bytes.now) }
{
    bytes.contains(&byte)
}

// Whether byte i is out of range, or stands earlier in its block.
fn offends(head: Head, blocks: &[u8], i: usize) -> bool
    requires { (Fits head) × (i < length blocks.now) }
    ensures { result ≡ offends head blocks.now i }
{
    let byte = blocks[i];
    let start = i - i % (2 * head.p);
    !in_range(head, byte) || stands_among(&blocks[start..i], byte)
}

// The first byte that offends, or the length where none does.
fn offender(head: Head, blocks: &[u8]) -> usize
    requires { Fits head }
    ensures { result ≡ offender head blocks.now }
{
    for i in 0..blocks.len() {
        if offends(head, blocks, i) {
            return i;
        }
    }
    blocks.len()
}
