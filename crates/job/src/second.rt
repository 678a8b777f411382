// A file of the second edition read and worked out: its fields, then its four fields as a file of the first edition, each refusal moved to its place.
ghost use Rattle.std.specs.Prelude.{◌≡◌, cond, ◌+◌, ◌≤◌, eqb, get_or};
ghost use Rattle.meaning.specs.Refusals.{accepted, place};
ghost use Rattle.meaning.specs.File.{head_of, set_of, fields};
ghost use Rattle.meaning.specs.Edition2.{file_limit2, four_of, moved_on, names_tag, names_length, fields2, read_verdict2, read_answer2};
ghost use Rattle.meaning.specs.Edition2.{solve_answer2, solve_words2, solve_values2, solve_deviations2};
ghost use Rattle.job.specs.Direct.{moved_limit, solved_on};

use crate::reading::read_refusal;
use crate::solving::solve;
use design::objects;
use fields::{edition_refusal, fields_refusal, four_end, held, optional_refusal};
use numbers::byte;
use records::{JobRead, Refusal, SecondRead, Solved, Verdict};
use verdicts::{is_refused, no_job, no_solution};

// The largest number of bytes.
const FILE_LIMIT: usize = 16384;

// Where the four fields start.
pub(crate) const START_AT: usize = 4;

// Reads a file of the second edition: what reading its four fields hands back, moved to its places, and where the names stand.
pub fn read_second(bytes: &[u8]) -> SecondRead
    ensures { result ≡ read_answer2 bytes.now }
{
    // A refusal hands back zeros too, so that the question mark does not serve.
    let verdict = second_refusal(bytes);
    if is_refused(verdict) {
        let job = no_job(verdict);
        return SecondRead { job, names_at: 0 };
    }
    let held = held(four_fields(bytes));
    let job = JobRead {
        verdict: Ok(()),
        head: held.head,
        blocks_at: START_AT + held.blocks_at,
        readings_at: START_AT + held.readings_at,
        set: held.set,
        sum: held.sum,
    };
    SecondRead {
        job,
        names_at: names_at(bytes, four_end(bytes)),
    }
}

// Works a file of the second edition out into lent room, as a file of the first is. A refusal writes nowhere.
pub fn solve_second(
    bytes: &[u8],
    words: &mut [u64],
    values: &mut [i64],
    deviations: &mut [i64],
) -> Solved
    ensures value { result ≡ solve_answer2 bytes.now words.old values.old deviations.old }
    ensures words_after { words.new ≡ solve_words2 bytes.now words.old values.old deviations.old }
    ensures values_after { values.new ≡ solve_values2 bytes.now words.old values.old deviations.old }
    ensures deviations_after { deviations.new ≡ solve_deviations2 bytes.now words.old values.old deviations.old }
{
    // A refusal hands back zeros too, so that the question mark does not serve.
    let framed = second_fields(bytes);
    if is_refused(framed) {
        return no_solution(framed);
    }
    solved_on(solve(four_fields(bytes), words, values, deviations))
}

// The restraint set that stands in the four fields, 0 where nothing does.
pub fn set_second(bytes: &[u8]) -> u64
    ensures { result ≡ set_of (four_of bytes.now) }
{
    held(four_fields(bytes)).set
}

// The verdict of reading: the fields, then what the four hold, each refusal at its place in the file.
pub(crate) fn second_refusal(bytes: &[u8]) -> Verdict
    ensures { result ≡ read_verdict2 bytes.now }
{
    second_fields(bytes)?;
    moved_on(read_refusal(four_fields(bytes)))
}

// The fields: too long before all else, the edition, the four fields, and the optional ones.
#[tactic(auto, using(std::proofs::lemmas::Bool::Decides::nat_tests), unfolding(meaning::specs::Edition2::fields2))]
fn second_fields(bytes: &[u8]) -> Verdict
    ensures { result ≡ fields2 bytes.now }
{
    if FILE_LIMIT < bytes.len() {
        return Err(Refusal {
            number: 4,
            place: 0,
        });
    }
    edition_refusal(bytes)?;
    let four = four_fields(bytes);
    moved_on(fields_refusal(four))?;
    optional_refusal(bytes, four_end(bytes), names_length(four))
}

// The four fields: what follows the edition field, as far as they go by their sizes.
pub(crate) fn four_fields(bytes: &[u8]) -> &[u8]
    ensures { result.now ≡ four_of bytes.now }
{
    if bytes.len() < START_AT {
        return &[];
    }
    &bytes[START_AT..four_end(bytes)]
}

// A refusal of the four fields moved to its place in the whole file; 6 and 10 have none.
fn moved_on(verdict: Verdict) -> Verdict
    requires { place verdict ≤ moved_limit }
    ensures { result ≡ moved_on verdict }
{
    match verdict {
        Err(Refusal { number, place }) if number != 6 && number != 10 => Err(Refusal {
            number,
            place: START_AT + place,
        }),
        _ => verdict,
    }
}

// A job worked out, its verdict moved.
fn solved_on(solved: Solved) -> Solved
    requires { place solved.verdict ≤ moved_limit }
    ensures { result ≡ solved_on solved }
{
    Solved {
        verdict: moved_on(solved.verdict),
        ..solved
    }
}

// How many bytes the names of a file have: eight an object.
fn names_length(four: &[u8]) -> usize
    requires { fields four.now ≡ accepted }
    ensures { result ≡ names_length (head_of four.now) }
{
    let held = held(four);
    8 * objects(held.head)
}

// Where the names stand, 0 where there are none.
fn names_at(bytes: &[u8], end: usize) -> usize
    requires { end ≤ file_limit2 }
    ensures { result ≡ cond (eqb (get_or bytes.now end 0) names_tag) (end + 3) 0 }
{
    if byte(bytes, end) == 128 { end + 3 } else { 0 }
}
