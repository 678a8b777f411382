// The file of a practice job: its readings are drawn, and M is the true sum over the restraint set.
ghost use Rattle.std.specs.Prelude.{◌≡◌, length};
ghost use Rattle.meaning.specs.Practice.{practice_file_answer, practice_file_after};

use crate::readings::{practice, sum_between};
use records::{Head, JobWritten};
use verdicts::is_refused;
use writing::write;

// Writes the file of a practice job to the front of `out`, whose other bytes stay. A refusal writes nothing.
pub fn practice_file(
    head: Head,
    blocks: &[u8],
    truths: &[i32],
    start: u32,
    width: usize,
    set: u64,
    out: &mut [u8],
) -> JobWritten
    ensures value { result ≡ practice_file_answer head blocks.now truths.now width set (length out.old) }
    ensures out_after { out.new ≡ practice_file_after head blocks.now truths.now start width set out.old }
{
    let mut readings = [0i32; 1300];
    let tested = practice(head, blocks, truths, start, width, &mut readings);
    // A refusal hands back zeros beside its verdict.
    if is_refused(tested) {
        return JobWritten {
            verdict: tested,
            length: 0,
        };
    }
    let sum = sum_between(truths, set, 0);
    let b = head.m * head.n;
    write(head, blocks, set, sum, &readings[..b], out)
}
