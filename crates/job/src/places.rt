// Places in a job file: a direct call's refusal moved to the byte where what it refuses stands.
ghost use Rattle.std.specs.Prelude.{◌≡◌, ◌≤◌};
ghost use Rattle.meaning.specs.Refusals.{refused, place};
ghost use Rattle.meaning.specs.File.{placed};
ghost use Rattle.job.specs.Direct.{place_limit};

use fields::held;
use records::{Refusal, Verdict};

// A direct call's verdict moved to its place in the file.
pub(crate) fn moved(bytes: &[u8], verdict: Verdict) -> Verdict
    requires { place verdict ≤ place_limit }
    ensures { result ≡ placed bytes.now verdict }
{
    let Err(Refusal { number, place }) = verdict else {
        return verdict;
    };
    Err(Refusal {
        number,
        place: file_place(bytes, number, place),
    })
}

// The place: a byte of the blocks, the start of the third field, the first byte of a reading. Any other number has no place of its own in the file.
fn file_place(bytes: &[u8], number: u8, i: usize) -> usize
    requires { i ≤ place_limit }
    ensures { result ≡ place (placed bytes.now (refused number i)) }
{
    let held = held(bytes);
    match number {
        5 => held.blocks_at + i,
        7 | 11 => held.restraint_at,
        8 => held.readings_at + 4 * i,
        _ => i,
    }
}
