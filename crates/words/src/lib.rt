// A side of a block, or a restraint set, as a 64-bit word, one bit an object; every count is the language's own. The face: the ones of a word and the
// walk of its objects, lowest first; in `sides`, an object in a word, two objects in company or in opposition.
#![tactic(auto)]

mod sides;

ghost use Rattle.std.specs.Prelude.{◌≡◌};
ghost use Rattle.algebra.specs.Ranges.{sum_ℕ};
ghost use Rattle.meaning.specs.Analysis.{member};
ghost use Rattle.words.specs.Bits.{lowest_of, without_lowest};

pub use sides::{holds, in_company, in_opposition};

// How many objects stand in a word.
#[tactic(auto, using(crate::proofs::Bits::ones_sum))]
pub fn ones(word: u64) -> u64
    ensures { result ≡ sum_ℕ 64 (member word) }
{
    u64::from(word.count_ones())
}

// The place of the lowest object of a word, and 64 where it has none: with the next function, a walk of the objects of a word.
#[tactic(auto, using(crate::proofs::Walk::lowest_trailing))]
pub fn lowest(word: u64) -> usize
    ensures { result ≡ lowest_of word }
{
    word.trailing_zeros() as usize
}

// A word without its lowest object. One that has none stays.
#[tactic(auto, using(crate::proofs::Walk::rest_wrapped))]
pub fn without_lowest(word: u64) -> u64
    ensures { result ≡ without_lowest word }
{
    word & word.wrapping_sub(1)
}
