// Calls on files of the second edition: one read, worked out, written, listed, and moved from one edition to the other.
ghost use Rattle.std.specs.Prelude.{◌≡◌};
ghost use Rattle.meaning.specs.Edition2.{read_answer2};
ghost use Rattle.slots.specs.Told.{told};
ghost use Rattle.slots.specs.Answers.{second_call, second_signed, second_laid, solved_laid, solved_real, written_call, written_laid, listed_call, listed_laid};
ghost use Rattle.api.specs.Heads.{head_from};
ghost use Rattle.api.specs.Second.{second_solved, second_solve_call, second_words, second_values, second_deviations, second_written, write_second};
ghost use Rattle.api.specs.Second.{moved_to_second, to_second, moved_to_first, to_first, second_listed, second_text};

use job::{read_second, solve_second, to_first, to_second};
use listing::listing_second;
use records::{Head, Refusal};
use slots::{lay_listed, lay_second, lay_solved, lay_written, solved_room, told, with_room};
use writing::write_second;

// Reads a file of the second edition.
#[unsafe(no_mangle)]
pub extern "C" fn bench_read_second(bytes: &[u8], signed: &mut [i64], answer: &mut [u64]) -> u64
    ensures value { result ≡ told (second_call (read_answer2 bytes.now) signed.old answer.old) }
    ensures signed_after { signed.new ≡ second_signed (read_answer2 bytes.now) signed.old answer.old }
    ensures answer_after { answer.new ≡ second_laid (read_answer2 bytes.now) signed.old answer.old }
{
    lay_second(read_second(bytes), signed, answer)
}

// Works a file of the second edition out. Where the slots are too few the file is only read, and nothing is written.
#[tactic(auto, using(crate::proofs::Slots::solving_calls), unfolding(slots::specs::Answers::solved_call, meaning::specs::Edition2::solve_verdict2))]
#[unsafe(no_mangle)]
pub extern "C" fn bench_solve_second(
    bytes: &[u8],
    words: &mut [u64],
    values: &mut [i64],
    deviations: &mut [i64],
    answer: &mut [u64],
    real: &mut [f64],
) -> u64
    ensures value { result ≡ told (second_solve_call bytes.now
        words.old values.old deviations.old answer.old real.old) }
    ensures words_after { words.new ≡ second_words bytes.now
        words.old values.old deviations.old answer.old real.old }
    ensures values_after { values.new ≡ second_values bytes.now
        words.old values.old deviations.old answer.old real.old }
    ensures deviations_after { deviations.new ≡ second_deviations bytes.now
        words.old values.old deviations.old answer.old real.old }
    ensures answer_after { answer.new ≡ solved_laid (second_solved bytes.now words.old values.old deviations.old)
        answer.old real.old }
    ensures real_after { real.new ≡ solved_real (second_solved bytes.now words.old values.old deviations.old)
        answer.old real.old }
{
    if solved_room(answer.len(), real.len()).is_err() {
        return told(with_room(read_second(bytes).job.verdict, 0, 1));
    }
    lay_solved(solve_second(bytes, words, values, deviations), answer, real)
}

// Writes the file of a job in the second edition to the front of `out`. Without a slot the tests alone are made: one byte is room for no file.
#[tactic(auto, using(crate::proofs::Slots::file_calls), unfolding(slots::specs::Answers::written_call, meaning::specs::Edition2::write_verdict2))]
#[unsafe(no_mangle)]
pub extern "C" fn bench_write_second(
    n: usize,
    flag: usize,
    p: usize,
    m: usize,
    blocks: &[u8],
    set: u64,
    sum: i64,
    readings: &[i32],
    names: &[u8],
    out: &mut [u8],
    answer: &mut [u64],
) -> u64
    ensures value { result ≡ told (written_call (second_written (head_from n flag p m) blocks.now readings.now set sum
        names.now out.old) answer.old) }
    ensures out_after { out.new ≡ write_second (head_from n flag p m) blocks.now readings.now set sum
        names.now out.old answer.old }
    ensures answer_after { answer.new ≡ written_laid (second_written (head_from n flag p m) blocks.now readings.now set sum
        names.now out.old) answer.old }
{
    let head = Head { n, flag, p, m };
    if answer.is_empty() {
        return told(write_second(head, blocks, set, sum, readings, names, &mut [0]).verdict);
    }
    lay_written(
        write_second(head, blocks, set, sum, readings, names, out),
        answer,
    )
}

// Moves a file of the first edition to the second, at the front of `out`. Without a slot the tests alone are made.
#[tactic(auto, using(crate::proofs::Slots::file_calls), unfolding(slots::specs::Answers::written_call, meaning::specs::Edition2::to_second_verdict))]
#[unsafe(no_mangle)]
pub extern "C" fn bench_to_second(bytes: &[u8], out: &mut [u8], answer: &mut [u64]) -> u64
    ensures value { result ≡ told (written_call (moved_to_second bytes.now out.old) answer.old) }
    ensures out_after { out.new ≡ to_second bytes.now out.old answer.old }
    ensures answer_after { answer.new ≡ written_laid (moved_to_second bytes.now out.old) answer.old }
{
    if answer.is_empty() {
        return told(to_second(bytes, &mut [0]).verdict);
    }
    lay_written(to_second(bytes, out), answer)
}

// Moves a file of the second edition to the first, at the front of `out`. Without a slot the tests alone are made.
#[tactic(auto, using(crate::proofs::Slots::file_calls), unfolding(slots::specs::Answers::written_call))]
#[unsafe(no_mangle)]
pub extern "C" fn bench_to_first(bytes: &[u8], out: &mut [u8], answer: &mut [u64]) -> u64
    ensures value { result ≡ told (written_call (moved_to_first bytes.now out.old) answer.old) }
    ensures out_after { out.new ≡ to_first bytes.now out.old answer.old }
    ensures answer_after { answer.new ≡ written_laid (moved_to_first bytes.now out.old) answer.old }
{
    if answer.is_empty() {
        return told(to_first(bytes, &mut [0]).verdict);
    }
    lay_written(to_first(bytes, out), answer)
}

// Writes the text for a file of the second edition to the front of `out`. Without a slot nothing is written.
#[tactic(auto, using(crate::proofs::Slots::text_calls), unfolding(slots::specs::Answers::listed_call))]
#[unsafe(no_mangle)]
pub extern "C" fn bench_listing_second(bytes: &[u8], out: &mut [u8], answer: &mut [u64]) -> u64
    ensures value { result ≡ told (listed_call (second_listed bytes.now out.old) answer.old) }
    ensures out_after { out.new ≡ second_text bytes.now out.old answer.old }
    ensures answer_after { answer.new ≡ listed_laid (second_listed bytes.now out.old) answer.old }
{
    if answer.is_empty() {
        return told(Err(Refusal {
            number: 10,
            place: 0,
        }));
    }
    lay_listed(listing_second(bytes, out), answer)
}
