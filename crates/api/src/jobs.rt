// Calls on whole jobs: their tests, the values of all objects and of one, its standard uncertainty, the published column, and everything at once.
ghost use Rattle.std.specs.Prelude.{◌≡◌, length};
ghost use Rattle.meaning.specs.Calls.{job_verdict, values_verdict, published_after, value_answer};
ghost use Rattle.meaning.specs.Certificate.{uncertainty_answer};
ghost use Rattle.slots.specs.Told.{told};
ghost use Rattle.slots.specs.Answers.{uncertainty_call, uncertainty_laid, uncertainty_real};
ghost use Rattle.slots.specs.Answers.{value_call, value_signed, value_laid, value_real, solved_laid, solved_real};
ghost use Rattle.api.specs.Heads.{head_from};
ghost use Rattle.api.specs.Rooms.{value_numerators};
ghost use Rattle.api.specs.Jobs.{analysed, analyse_call, analyse_words, analyse_values, analyse_deviations};

use analysis::analyse;
use analysis::publishing::published;
use analysis::uncertainty::uncertainty_of;
use analysis::values::{value_of, values as numerators};
use judging::refusal;
use records::Head;
use slots::{lay_solved, lay_uncertainty, lay_value, solved_room, told, with_room};

// Why a whole job is refused, with no room.
#[unsafe(no_mangle)]
pub extern "C" fn bench_refusal(
    n: usize,
    flag: usize,
    p: usize,
    m: usize,
    blocks: &[u8],
    readings: &[i32],
    set: u64,
    sum: i64,
) -> u64
    ensures { result ≡ told (job_verdict (head_from n flag p m) blocks.now readings.now set sum) }
{
    let head = Head { n, flag, p, m };
    told(refusal(head, blocks, readings, set, sum))
}

// The numerators of all objects.
#[unsafe(no_mangle)]
pub extern "C" fn bench_values(
    n: usize,
    flag: usize,
    p: usize,
    m: usize,
    blocks: &[u8],
    readings: &[i32],
    set: u64,
    sum: i64,
    values: &mut [i64],
) -> u64
    ensures value { result ≡ told (values_verdict (head_from n flag p m) blocks.now readings.now set sum (length values.old)) }
    ensures values_after { values.new ≡ value_numerators (head_from n flag p m) blocks.now readings.now set sum values.old }
{
    let head = Head { n, flag, p, m };
    told(numerators(head, blocks, readings, set, sum, values))
}

// The value of one object.
#[unsafe(no_mangle)]
pub extern "C" fn bench_value_of(
    n: usize,
    flag: usize,
    p: usize,
    m: usize,
    blocks: &[u8],
    readings: &[i32],
    set: u64,
    sum: i64,
    object: usize,
    signed: &mut [i64],
    answer: &mut [u64],
    real: &mut [f64],
) -> u64
    ensures value { result ≡ told (value_call (value_answer (head_from n flag p m) blocks.now readings.now set sum object)
        signed.old answer.old real.old) }
    ensures signed_after { signed.new ≡ value_signed (value_answer (head_from n flag p m) blocks.now readings.now set sum object)
        signed.old answer.old real.old }
    ensures answer_after { answer.new ≡ value_laid (value_answer (head_from n flag p m) blocks.now readings.now set sum object)
        signed.old answer.old real.old }
    ensures real_after { real.new ≡ value_real (value_answer (head_from n flag p m) blocks.now readings.now set sum object)
        signed.old answer.old real.old }
{
    let head = Head { n, flag, p, m };
    lay_value(
        value_of(head, blocks, readings, set, sum, object),
        signed,
        answer,
        real,
    )
}

// The standard uncertainty of one object.
#[unsafe(no_mangle)]
pub extern "C" fn bench_uncertainty_of(
    n: usize,
    flag: usize,
    p: usize,
    m: usize,
    blocks: &[u8],
    readings: &[i32],
    set: u64,
    sum: i64,
    object: usize,
    answer: &mut [u64],
    real: &mut [f64],
) -> u64
    ensures value { result ≡ told (uncertainty_call (uncertainty_answer (head_from n flag p m) blocks.now readings.now set sum object)
        answer.old real.old) }
    ensures answer_after { answer.new ≡ uncertainty_laid (uncertainty_answer (head_from n flag p m) blocks.now readings.now set sum object)
        answer.old real.old }
    ensures real_after { real.new ≡ uncertainty_real (uncertainty_answer (head_from n flag p m) blocks.now readings.now set sum object)
        answer.old real.old }
{
    let head = Head { n, flag, p, m };
    lay_uncertainty(
        uncertainty_of(head, blocks, readings, set, sum, object),
        answer,
        real,
    )
}

// The published hundredths of all objects.
#[unsafe(no_mangle)]
pub extern "C" fn bench_published(
    n: usize,
    flag: usize,
    p: usize,
    m: usize,
    blocks: &[u8],
    readings: &[i32],
    set: u64,
    sum: i64,
    hundredths: &mut [i64],
) -> u64
    ensures value { result ≡ told (values_verdict (head_from n flag p m) blocks.now readings.now set sum (length hundredths.old)) }
    ensures hundredths_after { hundredths.new ≡ published_after (head_from n flag p m) blocks.now readings.now set sum
        hundredths.old }
{
    let head = Head { n, flag, p, m };
    told(published(head, blocks, readings, set, sum, hundredths))
}

// Everything at once: words, values and deviations into their rooms. Where the slots are too few the tests alone are made, and nothing is written.
#[tactic(auto, using(crate::proofs::Slots::solving_calls), unfolding(slots::specs::Answers::solved_call, meaning::specs::Calls::analyse_verdict))]
#[unsafe(no_mangle)]
pub extern "C" fn bench_analyse(
    n: usize,
    flag: usize,
    p: usize,
    m: usize,
    blocks: &[u8],
    readings: &[i32],
    set: u64,
    sum: i64,
    words: &mut [u64],
    values: &mut [i64],
    deviations: &mut [i64],
    answer: &mut [u64],
    real: &mut [f64],
) -> u64
    ensures value { result ≡ told (analyse_call (head_from n flag p m) blocks.now readings.now set sum
        words.old values.old deviations.old answer.old real.old) }
    ensures words_after { words.new ≡ analyse_words (head_from n flag p m) blocks.now readings.now set sum
        words.old values.old deviations.old answer.old real.old }
    ensures values_after { values.new ≡ analyse_values (head_from n flag p m) blocks.now readings.now set sum
        words.old values.old deviations.old answer.old real.old }
    ensures deviations_after { deviations.new ≡ analyse_deviations (head_from n flag p m) blocks.now readings.now set sum
        words.old values.old deviations.old answer.old real.old }
    ensures answer_after { answer.new ≡ solved_laid (analysed (head_from n flag p m) blocks.now readings.now set sum
        words.old values.old deviations.old) answer.old real.old }
    ensures real_after { real.new ≡ solved_real (analysed (head_from n flag p m) blocks.now readings.now set sum
        words.old values.old deviations.old) answer.old real.old }
{
    let head = Head { n, flag, p, m };
    if solved_room(answer.len(), real.len()).is_err() {
        return told(with_room(refusal(head, blocks, readings, set, sum), 0, 1));
    }
    let solved = analyse(head, blocks, readings, set, sum, words, values, deviations);
    lay_solved(solved, answer, real)
}
