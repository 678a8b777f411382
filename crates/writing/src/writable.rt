// Whether a job's file can be written: the job is accepted, and the room is long enough for the file.
ghost use Rattle.std.specs.Prelude.{◌≡◌};
ghost use Rattle.meaning.specs.Refusals.{◌⨾◌, room};
ghost use Rattle.meaning.specs.Calls.{job_verdict};
ghost use Rattle.meaning.specs.Writing.{file_length};

use judging::refusal;
use records::{Head, Refusal, Verdict};

// Why nothing is written, or that the job is accepted and `space` bytes are enough. The room is looked at last: then the lists have the lengths that
// go with the sizes.
pub(crate) fn write_refusal(
    head: Head,
    blocks: &[u8],
    set: u64,
    sum: i64,
    readings: &[i32],
    space: usize,
) -> Verdict
    ensures { result ≡ job_verdict head blocks.now readings.now set sum ⨾ room space (file_length head) }
{
    refusal(head, blocks, readings, set, sum)?;
    let length = 32 + blocks.len() + 4 * readings.len();
    if space < length {
        return Err(Refusal {
            number: 10,
            place: 0,
        });
    }
    Ok(())
}
