// The file of a job, field after field, written into lent room; nothing is written where the job or the room is refused.
ghost use Rattle.std.specs.Prelude.{◌≡◌, ◌*◌, length};
ghost use Rattle.algebra.specs.Buffers.{Wrote};
ghost use Rattle.laws.specs.Fits.{Fits};
ghost use Rattle.meaning.specs.Design.{list_length};
ghost use Rattle.meaning.specs.Writing.{field_bytes, sizes_body, file_of, written_answer, written_after};

use crate::encoding::{put_readings, put_restraint, put_start};
use crate::writable::write_refusal;
use printing::put_text;
use records::{Head, JobWritten};
use verdicts::is_refused;

// Writes the file of a job to the front of `out`, whose other bytes stay. A refusal writes nothing.
pub fn write(
    head: Head,
    blocks: &[u8],
    set: u64,
    sum: i64,
    readings: &[i32],
    out: &mut [u8],
) -> JobWritten
    ensures value { result ≡ written_answer head blocks.now readings.now set sum (length out.old) }
    ensures out_after { out.new ≡ written_after head blocks.now readings.now set sum out.old }
{
    // A refusal hands back zeros too, so that the question mark does not serve.
    let verdict = write_refusal(head, blocks, set, sum, readings, out.len());
    if is_refused(verdict) {
        return JobWritten { verdict, length: 0 };
    }
    let length = put_file(out, 0, head, blocks, set, sum, readings);
    JobWritten { verdict, length }
}

// The four fields from a place on, as far as there is room.
pub(crate) fn put_file(
    out: &mut [u8],
    at: usize,
    head: Head,
    blocks: &[u8],
    set: u64,
    sum: i64,
    readings: &[i32],
) -> usize
    requires { (Fits head) × (length blocks.now ≡ list_length head) × (length readings.now ≡ head.m * head.n) }
    ensures { Wrote out.old at (file_of head blocks.now readings.now set sum) out.new result }
{
    let second = put_sizes(out, at, head);
    let blocks_at = put_start(out, second, 2, blocks.len());
    let third = put_text(out, blocks_at, blocks);
    let fourth = put_restraint(out, third, set, sum);
    let readings_at = put_start(out, fourth, 4, 4 * readings.len());
    put_readings(out, readings_at, readings)
}

// The first field: the sizes, a byte each.
fn put_sizes(out: &mut [u8], at: usize, head: Head) -> usize
    requires { Fits head }
    ensures { Wrote out.old at (field_bytes head 1 (sizes_body head)) out.new result }
{
    let body = put_start(out, at, 1, 4);
    let sizes = [head.n as u8, head.flag as u8, head.p as u8, head.m as u8];
    put_text(out, body, &sizes)
}
