// Calls for deviations, Q and spread, which take no restraint.
ghost use Rattle.std.specs.Prelude.{◌≡◌, length};
ghost use Rattle.meaning.specs.Calls.{deviations_verdict, deviation_answer, qAnswer, spread_answer};
ghost use Rattle.slots.specs.Told.{told};
ghost use Rattle.slots.specs.Answers.{deviation_call, deviation_signed, deviation_laid, sum_call, sum_laid, spread_call, spread_laid, spread_real};
ghost use Rattle.api.specs.Heads.{head_from};
ghost use Rattle.api.specs.Rooms.{deviation_numerators};

use analysis::deviations::{deviation_of, deviations as numerators};
use analysis::spread::{q, spread};
use records::Head;
use slots::{lay_deviation, lay_spread, lay_sum, told};

// The deviation numerators of all blocks.
#[unsafe(no_mangle)]
pub extern "C" fn bench_deviations(
    n: usize,
    flag: usize,
    p: usize,
    m: usize,
    blocks: &[u8],
    readings: &[i32],
    deviations: &mut [i64],
) -> u64
    ensures value { result ≡ told (deviations_verdict (head_from n flag p m) blocks.now readings.now (length deviations.old)) }
    ensures deviations_after { deviations.new ≡ deviation_numerators (head_from n flag p m) blocks.now readings.now
        deviations.old }
{
    let head = Head { n, flag, p, m };
    told(numerators(head, blocks, readings, deviations))
}

// The deviation of one block.
#[unsafe(no_mangle)]
pub extern "C" fn bench_deviation_of(
    n: usize,
    flag: usize,
    p: usize,
    m: usize,
    blocks: &[u8],
    readings: &[i32],
    block: usize,
    signed: &mut [i64],
    answer: &mut [u64],
) -> u64
    ensures value { result ≡ told (deviation_call (deviation_answer (head_from n flag p m) blocks.now readings.now block)
        signed.old answer.old) }
    ensures signed_after { signed.new ≡ deviation_signed (deviation_answer (head_from n flag p m) blocks.now readings.now block)
        signed.old answer.old }
    ensures answer_after { answer.new ≡ deviation_laid (deviation_answer (head_from n flag p m) blocks.now readings.now block)
        signed.old answer.old }
{
    let head = Head { n, flag, p, m };
    lay_deviation(deviation_of(head, blocks, readings, block), signed, answer)
}

// Q.
#[unsafe(no_mangle)]
pub extern "C" fn bench_q(
    n: usize,
    flag: usize,
    p: usize,
    m: usize,
    blocks: &[u8],
    readings: &[i32],
    answer: &mut [u64],
) -> u64
    ensures value { result ≡ told (sum_call (qAnswer (head_from n flag p m) blocks.now readings.now) answer.old) }
    ensures answer_after { answer.new ≡ sum_laid (qAnswer (head_from n flag p m) blocks.now readings.now) answer.old }
{
    let head = Head { n, flag, p, m };
    lay_sum(q(head, blocks, readings), answer)
}

// The spread, with all that it is made from.
#[unsafe(no_mangle)]
pub extern "C" fn bench_spread(
    n: usize,
    flag: usize,
    p: usize,
    m: usize,
    blocks: &[u8],
    readings: &[i32],
    answer: &mut [u64],
    real: &mut [f64],
) -> u64
    ensures value { result ≡ told (spread_call (spread_answer (head_from n flag p m) blocks.now readings.now)
        answer.old real.old) }
    ensures answer_after { answer.new ≡ spread_laid (spread_answer (head_from n flag p m) blocks.now readings.now)
        answer.old real.old }
    ensures real_after { real.new ≡ spread_real (spread_answer (head_from n flag p m) blocks.now readings.now)
        answer.old real.old }
{
    let head = Head { n, flag, p, m };
    lay_spread(spread(head, blocks, readings), answer, real)
}
