// How a call ended, as one number.
ghost use Rattle.std.specs.Prelude.{◌≡◌};
ghost use Rattle.slots.specs.Told.{told};

use crate::pools::told_at;
use records::Verdict;

// A verdict as one number: its number, and from the seventeenth bit on its place, of which 48 bits are told. 0 where it accepts.
pub fn told(verdict: Verdict) -> u64
    ensures { result ≡ told verdict }
{
    told_at(verdict, 0)
}
