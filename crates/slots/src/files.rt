// What calls on files answer: a field, a job that was read, a file that was written, a listing.
ghost use Rattle.std.specs.Prelude.{◌≡◌};
ghost use Rattle.slots.specs.Told.{told};
ghost use Rattle.slots.specs.Answers.{field_call, field_laid, read_call, read_signed, read_laid, written_call, written_laid, listed_call, listed_laid};
ghost use Rattle.slots.specs.Answers.{second_call, second_signed, second_laid};

use crate::arrays::{read_slots, second_slots};
use crate::laying::lay;
use crate::rooms::with_room;
use crate::telling::told;
use records::{Body, Field, JobRead, JobWritten, Listed, SecondRead};

// The field at a place.
#[tactic(auto, unfolding(crate::specs::Answers::field_call))]
pub fn lay_field(found: Field, place: usize, answer: &mut [u64]) -> u64
    ensures value { result ≡ told (field_call found place answer.old) }
    ensures answer_after { answer.new ≡ field_laid found place answer.old }
{
    match found {
        Ok(Body { start, next }) => {
            let verdict = with_room(Ok(()), answer.len(), 2);
            lay(verdict, &[start as u64, next as u64], answer);
            told(verdict)
        }
        Err(refusal) => told(Err(refusal)),
    }
}

// A job that was read.
#[tactic(auto, unfolding(crate::specs::Answers::read_call))]
pub fn lay_read(read: JobRead, signed: &mut [i64], answer: &mut [u64]) -> u64
    ensures value { result ≡ told (read_call read signed.old answer.old) }
    ensures signed_after { signed.new ≡ read_signed read signed.old answer.old }
    ensures answer_after { answer.new ≡ read_laid read signed.old answer.old }
{
    let signed_tested = with_room(read.verdict, signed.len(), 1);
    let verdict = with_room(signed_tested, answer.len(), 7);
    lay(verdict, &[read.sum], signed);
    lay(verdict, &read_slots(read), answer);
    told(verdict)
}

// A file of the second edition that was read.
#[tactic(auto, unfolding(crate::specs::Answers::second_call))]
pub fn lay_second(read: SecondRead, signed: &mut [i64], answer: &mut [u64]) -> u64
    ensures value { result ≡ told (second_call read signed.old answer.old) }
    ensures signed_after { signed.new ≡ second_signed read signed.old answer.old }
    ensures answer_after { answer.new ≡ second_laid read signed.old answer.old }
{
    let signed_tested = with_room(read.job.verdict, signed.len(), 1);
    let verdict = with_room(signed_tested, answer.len(), 8);
    lay(verdict, &[read.job.sum], signed);
    lay(verdict, &second_slots(read), answer);
    told(verdict)
}

// A file that was written.
#[tactic(auto, unfolding(crate::specs::Answers::written_call))]
pub fn lay_written(written: JobWritten, answer: &mut [u64]) -> u64
    ensures value { result ≡ told (written_call written answer.old) }
    ensures answer_after { answer.new ≡ written_laid written answer.old }
{
    let verdict = with_room(written.verdict, answer.len(), 1);
    lay(verdict, &[written.length as u64], answer);
    told(verdict)
}

// A listing.
#[tactic(auto, unfolding(crate::specs::Answers::listed_call))]
pub fn lay_listed(listed: Listed, answer: &mut [u64]) -> u64
    ensures value { result ≡ told (listed_call listed answer.old) }
    ensures answer_after { answer.new ≡ listed_laid listed answer.old }
{
    let verdict = with_room(listed.verdict, answer.len(), 1);
    lay(verdict, &[listed.length as u64], answer);
    told(verdict)
}
