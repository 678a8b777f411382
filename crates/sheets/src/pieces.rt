// A text that is cut at each of a byte: its pieces, how often the byte stands in it, and whether two texts are the same.
ghost use Rattle.std.specs.Prelude.{◌≡◌, ◌≤◌, length};
ghost use Rattle.meaning.specs.Design.{occ};
ghost use Rattle.meaning.specs.SheetText.{piece, same};

// Piece k of a text that is cut at each of a byte; no byte where there is no such piece.
pub(crate) fn piece(bytes: &[u8], k: usize, byte: u8) -> &[u8]
    ensures { result.now ≡ piece byte k bytes.now }
{
    bytes.split(|found| *found == byte).nth(k).unwrap_or(&[])
}

// How often a byte stands in a text.
#[tactic(auto, using(crate::proofs::pieces::Cuts::occ_is_count))]
pub(crate) fn count(bytes: &[u8], byte: u8) -> usize
    ensures value { result ≡ occ byte bytes.now }
    ensures upper_bound { result ≤ length bytes.now }
{
    bytes.iter().filter(|found| **found == byte).count()
}

// Whether two texts are the same.
#[tactic(auto, using(crate::proofs::pieces::Cuts::same_is_equal))]
pub fn same(a: &[u8], b: &[u8]) -> bool
    ensures { result ≡ same a.now b.now }
{
    a == b
}
