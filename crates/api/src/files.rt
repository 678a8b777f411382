// Calls on files: a field at a place, a job read, worked out, written, listed.
ghost use Rattle.std.specs.Prelude.{◌≡◌};
ghost use Rattle.meaning.specs.File.{field_at, read_answer};
ghost use Rattle.slots.specs.Told.{told};
ghost use Rattle.slots.specs.Answers.{field_call, field_laid, read_call, read_signed, read_laid, solved_laid, solved_real};
ghost use Rattle.slots.specs.Answers.{written_call, written_laid, listed_call, listed_laid};
ghost use Rattle.api.specs.Heads.{head_from};
ghost use Rattle.api.specs.Files.{solved, solve_call, solve_words, solve_values, solve_deviations, file_written, write_file, file_listed, listing_text};

use fields::field_at;
use job::{read, solve};
use judging::refusal;
use listing::listing;
use records::{Head, Refusal};
use slots::{
    lay_field, lay_listed, lay_read, lay_solved, lay_written, solved_room, told, with_room,
};
use writing::write;

// The field at a place of some bytes: its tag, and the length that its body must have.
#[unsafe(no_mangle)]
pub extern "C" fn bench_field_at(
    bytes: &[u8],
    place: usize,
    tag: u8,
    length: usize,
    answer: &mut [u64],
) -> u64
    ensures value { result ≡ told (field_call (field_at bytes.now place tag length) place answer.old) }
    ensures answer_after { answer.new ≡ field_laid (field_at bytes.now place tag length) place answer.old }
{
    lay_field(field_at(bytes, place, tag, length), place, answer)
}

// Reads a job file.
#[unsafe(no_mangle)]
pub extern "C" fn bench_read(bytes: &[u8], signed: &mut [i64], answer: &mut [u64]) -> u64
    ensures value { result ≡ told (read_call (read_answer bytes.now) signed.old answer.old) }
    ensures signed_after { signed.new ≡ read_signed (read_answer bytes.now) signed.old answer.old }
    ensures answer_after { answer.new ≡ read_laid (read_answer bytes.now) signed.old answer.old }
{
    lay_read(read(bytes), signed, answer)
}

// Works a job file out: words, values and deviations into their rooms. Where the slots are too few the file is only read, and nothing is written.
#[tactic(auto, using(crate::proofs::Slots::solving_calls), unfolding(slots::specs::Answers::solved_call, meaning::specs::File::solve_verdict))]
#[unsafe(no_mangle)]
pub extern "C" fn bench_solve(
    bytes: &[u8],
    words: &mut [u64],
    values: &mut [i64],
    deviations: &mut [i64],
    answer: &mut [u64],
    real: &mut [f64],
) -> u64
    ensures value { result ≡ told (solve_call bytes.now
        words.old values.old deviations.old answer.old real.old) }
    ensures words_after { words.new ≡ solve_words bytes.now
        words.old values.old deviations.old answer.old real.old }
    ensures values_after { values.new ≡ solve_values bytes.now
        words.old values.old deviations.old answer.old real.old }
    ensures deviations_after { deviations.new ≡ solve_deviations bytes.now
        words.old values.old deviations.old answer.old real.old }
    ensures answer_after { answer.new ≡ solved_laid (solved bytes.now words.old values.old deviations.old)
        answer.old real.old }
    ensures real_after { real.new ≡ solved_real (solved bytes.now words.old values.old deviations.old)
        answer.old real.old }
{
    if solved_room(answer.len(), real.len()).is_err() {
        return told(with_room(read(bytes).verdict, 0, 1));
    }
    lay_solved(solve(bytes, words, values, deviations), answer, real)
}

// Writes the file of a job to the front of `out`. Without a slot the tests alone are made, and nothing is written.
#[tactic(auto, using(crate::proofs::Slots::file_calls), unfolding(slots::specs::Answers::written_call, meaning::specs::Writing::write_verdict))]
#[unsafe(no_mangle)]
pub extern "C" fn bench_write(
    n: usize,
    flag: usize,
    p: usize,
    m: usize,
    blocks: &[u8],
    set: u64,
    sum: i64,
    readings: &[i32],
    out: &mut [u8],
    answer: &mut [u64],
) -> u64
    ensures value { result ≡ told (written_call (file_written (head_from n flag p m) blocks.now readings.now set sum
        out.old) answer.old) }
    ensures out_after { out.new ≡ write_file (head_from n flag p m) blocks.now readings.now set sum
        out.old answer.old }
    ensures answer_after { answer.new ≡ written_laid (file_written (head_from n flag p m) blocks.now readings.now set sum
        out.old) answer.old }
{
    let head = Head { n, flag, p, m };
    if answer.is_empty() {
        return told(with_room(refusal(head, blocks, readings, set, sum), 0, 1));
    }
    lay_written(write(head, blocks, set, sum, readings, out), answer)
}

// Writes the text for a job file to the front of `out`. Without a slot nothing is written.
#[tactic(auto, using(crate::proofs::Slots::text_calls), unfolding(slots::specs::Answers::listed_call))]
#[unsafe(no_mangle)]
pub extern "C" fn bench_listing(bytes: &[u8], out: &mut [u8], answer: &mut [u64]) -> u64
    ensures value { result ≡ told (listed_call (file_listed bytes.now out.old) answer.old) }
    ensures out_after { out.new ≡ listing_text bytes.now out.old answer.old }
    ensures answer_after { answer.new ≡ listed_laid (file_listed bytes.now out.old) answer.old }
{
    if answer.is_empty() {
        return told(Err(Refusal {
            number: 10,
            place: 0,
        }));
    }
    lay_listed(listing(bytes, out), answer)
}
