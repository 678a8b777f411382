// A file moved from one edition to the other. What is written is every byte of its four fields; a refusal writes nothing.
ghost use Rattle.std.specs.Prelude.{◌≡◌, length};
ghost use Rattle.meaning.specs.Edition2.{to_second_verdict, to_second_answer, to_second_after, to_first_verdict, to_first_answer, to_first_after};

use crate::reading::read_refusal;
use crate::second::{START_AT, four_fields, second_refusal};
use fields::four_end;
use printing::put_text;
use records::{JobWritten, Refusal, Verdict};
use verdicts::is_refused;

// Moves a file of the first edition to the second, at the front of `out`, whose other bytes stay.
pub fn to_second(bytes: &[u8], out: &mut [u8]) -> JobWritten
    ensures value { result ≡ to_second_answer bytes.now (length out.old) }
    ensures out_after { out.new ≡ to_second_after bytes.now out.old }
{
    // A refusal hands back zeros too, so that the question mark does not serve.
    let verdict = to_second_refusal(bytes, out.len());
    if is_refused(verdict) {
        return JobWritten { verdict, length: 0 };
    }
    let edition = [16u8, 0, 1, 2];
    let start = put_text(out, 0, &edition);
    let length = put_text(out, start, bytes);
    JobWritten { verdict, length }
}

// Moves a file of the second edition to the first, at the front of `out`, whose other bytes stay: only where it has no optional field.
pub fn to_first(bytes: &[u8], out: &mut [u8]) -> JobWritten
    ensures value { result ≡ to_first_answer bytes.now (length out.old) }
    ensures out_after { out.new ≡ to_first_after bytes.now out.old }
{
    // A refusal hands back zeros too, so that the question mark does not serve.
    let verdict = to_first_refusal(bytes, out.len());
    if is_refused(verdict) {
        return JobWritten { verdict, length: 0 };
    }
    let length = put_text(out, 0, four_fields(bytes));
    JobWritten { verdict, length }
}

// Why a file of the first edition is not moved: the tests of reading it, then the room.
#[tactic(auto, using(std::proofs::lemmas::Bool::Decides::nat_tests), unfolding(meaning::specs::Edition2::to_second_verdict))]
fn to_second_refusal(bytes: &[u8], space: usize) -> Verdict
    ensures { result ≡ to_second_verdict bytes.now space }
{
    read_refusal(bytes)?;
    if space < START_AT + bytes.len() {
        return Err(Refusal {
            number: 10,
            place: 0,
        });
    }
    Ok(())
}

// Why a file of the second edition is not moved back: the tests of reading it, the first optional field, then the room.
#[tactic(auto, using(std::proofs::lemmas::Bool::Decides::nat_tests), unfolding(meaning::specs::Edition2::to_first_verdict))]
fn to_first_refusal(bytes: &[u8], space: usize) -> Verdict
    ensures { result ≡ to_first_verdict bytes.now space }
{
    second_refusal(bytes)?;
    let end = four_end(bytes);
    if end < bytes.len() {
        return Err(Refusal {
            number: 13,
            place: end,
        });
    }
    if space < four_fields(bytes).len() {
        return Err(Refusal {
            number: 10,
            place: 0,
        });
    }
    Ok(())
}
