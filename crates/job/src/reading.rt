// A job file read: the fields, then what they hold, looked at as a direct call does, in the request's order.
ghost use Rattle.std.specs.Prelude.{◌≡◌};
ghost use Rattle.meaning.specs.Refusals.{accepted};
ghost use Rattle.meaning.specs.File.{fields, read_verdict, read_answer};
ghost use Rattle.job.specs.Direct.{direct_verdict};

use crate::places::moved;
use fields::{fields_refusal, held};
use judging::refusal;
use numbers::readings;
use records::{JobRead, Verdict};
use verdicts::{is_refused, no_job};

// Reads a job file: its head, where its blocks and its readings start, its restraint; or the first refusal in file order.
pub fn read(bytes: &[u8]) -> JobRead
    ensures { result ≡ read_answer bytes.now }
{
    // A refusal hands back zeros too, so that the question mark does not serve.
    let verdict = read_refusal(bytes);
    if is_refused(verdict) {
        return no_job(verdict);
    }
    let held = held(bytes);
    JobRead {
        verdict: Ok(()),
        head: held.head,
        blocks_at: held.blocks_at,
        readings_at: held.readings_at,
        set: held.set,
        sum: held.sum,
    }
}

// The verdict of reading: the fields, then what they hold, each refusal at its place in the file.
pub(crate) fn read_refusal(bytes: &[u8]) -> Verdict
    ensures { result ≡ read_verdict bytes.now }
{
    fields_refusal(bytes)?;
    moved(bytes, direct_refusal(bytes))
}

// A direct call's verdict on what a file holds, whose fields are there.
fn direct_refusal(bytes: &[u8]) -> Verdict
    requires { fields bytes.now ≡ accepted }
    ensures { result ≡ direct_verdict bytes.now }
{
    let held = held(bytes);
    // Decoded here: a function that handed the readings out would copy them.
    let mut decoded = [0i32; 1300];
    readings(bytes, held.readings_at, held.count, &mut decoded);
    refusal(
        held.head,
        &bytes[held.blocks_at..held.restraint_at],
        &decoded[..held.count],
        held.set,
        held.sum,
    )
}
