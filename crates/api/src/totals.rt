// Calls on readings that ask for no balance: the total of one object, and the two sums of squares.
ghost use Rattle.std.specs.Prelude.{◌≡◌};
ghost use Rattle.meaning.specs.Calls.{total_answer, squared_readings_answer, squared_totals_answer};
ghost use Rattle.slots.specs.Told.{told};
ghost use Rattle.slots.specs.Answers.{total_call, total_signed, sum_call, sum_laid};
ghost use Rattle.api.specs.Heads.{head_from};

use records::Head;
use slots::{lay_sum, lay_total};
use weighing::{sum_of_squared_totals, sum_of_squares, total};

// The total of one object.
#[unsafe(no_mangle)]
pub extern "C" fn bench_total(
    n: usize,
    flag: usize,
    p: usize,
    m: usize,
    blocks: &[u8],
    readings: &[i32],
    object: usize,
    signed: &mut [i64],
) -> u64
    ensures value { result ≡ told (total_call (total_answer (head_from n flag p m) blocks.now readings.now object)
        signed.old) }
    ensures signed_after { signed.new ≡ total_signed (total_answer (head_from n flag p m) blocks.now readings.now object)
        signed.old }
{
    let head = Head { n, flag, p, m };
    lay_total(total(head, blocks, readings, object), signed)
}

// The sum of the squared readings.
#[unsafe(no_mangle)]
pub extern "C" fn bench_sum_of_squares(
    n: usize,
    flag: usize,
    p: usize,
    m: usize,
    readings: &[i32],
    answer: &mut [u64],
) -> u64
    ensures value { result ≡ told (sum_call (squared_readings_answer (head_from n flag p m) readings.now) answer.old) }
    ensures answer_after { answer.new ≡ sum_laid (squared_readings_answer (head_from n flag p m) readings.now) answer.old }
{
    let head = Head { n, flag, p, m };
    lay_sum(sum_of_squares(head, readings), answer)
}

// The sum of the squared totals.
#[unsafe(no_mangle)]
pub extern "C" fn bench_sum_of_squared_totals(
    n: usize,
    flag: usize,
    p: usize,
    m: usize,
    blocks: &[u8],
    readings: &[i32],
    answer: &mut [u64],
) -> u64
    ensures value { result ≡ told (sum_call (squared_totals_answer (head_from n flag p m) blocks.now readings.now)
        answer.old) }
    ensures answer_after { answer.new ≡ sum_laid (squared_totals_answer (head_from n flag p m) blocks.now readings.now)
        answer.old }
{
    let head = Head { n, flag, p, m };
    lay_sum(sum_of_squared_totals(head, blocks, readings), answer)
}
