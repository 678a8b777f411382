// A job file worked out into lent room: refused in the request's order, or all that follows from what it holds.
ghost use Rattle.std.specs.Prelude.{◌≡◌, ◌≤◌};
ghost use Rattle.meaning.specs.Refusals.{place};
ghost use Rattle.meaning.specs.File.{solve_answer, solve_words, solve_values, solve_deviations};
ghost use Rattle.job.specs.Direct.{place_limit, solved_in};

use crate::places::moved;
use analysis::analyse;
use fields::{fields_refusal, held};
use numbers::readings;
use records::Solved;
use verdicts::{is_refused, no_solution};

// Works a job file out into lent room: words, numerators of the values, numerators of the deviations. A refusal writes nowhere.
pub fn solve(bytes: &[u8], words: &mut [u64], values: &mut [i64], deviations: &mut [i64]) -> Solved
    ensures value { result ≡ solve_answer bytes.now words.old values.old deviations.old }
    ensures words_after { words.new ≡ solve_words bytes.now words.old values.old deviations.old }
    ensures values_after { values.new ≡ solve_values bytes.now words.old values.old deviations.old }
    ensures deviations_after { deviations.new ≡ solve_deviations bytes.now words.old values.old deviations.old }
{
    // A refusal hands back zeros too, so that the question mark does not serve.
    let framed = fields_refusal(bytes);
    if is_refused(framed) {
        return no_solution(framed);
    }
    let held = held(bytes);
    // Decoded here: a function that handed the readings out would copy them.
    let mut decoded = [0i32; 1300];
    readings(bytes, held.readings_at, held.count, &mut decoded);
    let solved = analyse(
        held.head,
        &bytes[held.blocks_at..held.restraint_at],
        &decoded[..held.count],
        held.set,
        held.sum,
        words,
        values,
        deviations,
    );
    in_file(bytes, solved)
}

// A job worked out, its verdict moved to its place in the file.
fn in_file(bytes: &[u8], solved: Solved) -> Solved
    requires { place solved.verdict ≤ place_limit }
    ensures { result ≡ solved_in bytes.now solved }
{
    Solved {
        verdict: moved(bytes, solved.verdict),
        ..solved
    }
}
