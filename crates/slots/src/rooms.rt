// Whether what is lent has room for what a call lays out: 10 where it has not, and always the last test.
ghost use Rattle.std.specs.Prelude.{◌≡◌};
ghost use Rattle.meaning.specs.Refusals.{◌⨾◌, room};
ghost use Rattle.slots.specs.Answers.{solved_room};

use records::{Refusal, Verdict};

// A verdict, and where it accepts the test that a lent buffer has the room that is wanted.
pub fn with_room(verdict: Verdict, length: usize, want: usize) -> Verdict
    ensures { result ≡ verdict ⨾ room length want }
{
    verdict?;
    if length < want {
        return Err(Refusal {
            number: 10,
            place: 0,
        });
    }
    Ok(())
}

// Whether there are slots for a job worked out: a call that writes into rooms too asks before it does.
pub fn solved_room(answer: usize, real: usize) -> Verdict
    ensures { result ≡ solved_room answer real }
{
    with_room(with_room(Ok(()), answer, 13), real, 1)
}
