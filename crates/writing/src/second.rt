// The file of a job in the second edition, with or without names, written into lent room; nothing is written where the job, its names or the room is
// refused.
ghost use Rattle.std.specs.Prelude.{true, ◌≡◌, ◌*◌, length};
ghost use Rattle.algebra.specs.Buffers.{Wrote};
ghost use Rattle.laws.specs.Fits.{Fits};
ghost use Rattle.meaning.specs.Design.{sized, list_length};
ghost use Rattle.meaning.specs.Edition2.{names_field, names_fit, file_of2, write_verdict2, written_answer2, written_after2};

use crate::encoding::put_start;
use crate::file::put_file;
use design::objects;
use judging::refusal;
use printing::put_text;
use records::{Head, JobWritten, Refusal, Verdict};
use verdicts::is_refused;
use weighing::slices_refusal;

// Writes the file of a job to the front of `out`, whose other bytes stay. No names: an empty slice; else eight bytes for each object.
pub fn write_second(
    head: Head,
    blocks: &[u8],
    set: u64,
    sum: i64,
    readings: &[i32],
    names: &[u8],
    out: &mut [u8],
) -> JobWritten
    ensures value { result ≡ written_answer2 head blocks.now readings.now set sum names.now (length out.old) }
    ensures out_after { out.new ≡ written_after2 head blocks.now readings.now set sum names.now out.old }
{
    // A refusal hands back zeros too, so that the question mark does not serve.
    let verdict = second_refusal(head, blocks, set, sum, readings, names, out.len());
    if is_refused(verdict) {
        return JobWritten { verdict, length: 0 };
    }
    let length = put_second(out, head, blocks, set, sum, readings, names);
    JobWritten { verdict, length }
}

// Why nothing is written: the tests of the job, the length of the names among the lengths, and the room last.
fn second_refusal(
    head: Head,
    blocks: &[u8],
    set: u64,
    sum: i64,
    readings: &[i32],
    names: &[u8],
    space: usize,
) -> Verdict
    ensures { result ≡ write_verdict2 head blocks.now readings.now set sum names.now space }
{
    slices_refusal(head, blocks, readings)?;
    names_refusal(head, names)?;
    refusal(head, blocks, readings, set, sum)?;
    let length = 36 + blocks.len() + 4 * readings.len() + names_room(names);
    if space < length {
        return Err(Refusal {
            number: 10,
            place: 0,
        });
    }
    Ok(())
}

// There are no names, or eight bytes for each object.
fn names_refusal(head: Head, names: &[u8]) -> Verdict
    requires { sized head ≡ true }
    ensures { result ≡ names_fit head names.now }
{
    if names.is_empty() {
        return Ok(());
    }
    if names.len() != 8 * objects(head) {
        return Err(Refusal {
            number: 3,
            place: 0,
        });
    }
    Ok(())
}

// How many bytes the field of the names takes.
fn names_room(names: &[u8]) -> usize
    ensures { result ≡ length (names_field names.now) }
{
    if names.is_empty() { 0 } else { 3 + names.len() }
}

// The edition field, the four fields, and the names where there are any.
fn put_second(
    out: &mut [u8],
    head: Head,
    blocks: &[u8],
    set: u64,
    sum: i64,
    readings: &[i32],
    names: &[u8],
) -> usize
    requires { (Fits head) × (length blocks.now ≡ list_length head) × (length readings.now ≡ head.m * head.n) }
    ensures { Wrote out.old 0 (file_of2 head blocks.now readings.now set sum names.now)
        out.new result }
{
    let edition = [16u8, 0, 1, 2];
    let start = put_text(out, 0, &edition);
    let end = put_file(out, start, head, blocks, set, sum, readings);
    put_names(out, end, names)
}

// The field of the names, where there are any.
fn put_names(out: &mut [u8], at: usize, names: &[u8]) -> usize
    ensures { Wrote out.old at (names_field names.now) out.new result }
{
    if names.is_empty() {
        return at;
    }
    let body = put_start(out, at, 128, names.len());
    put_text(out, body, names)
}
