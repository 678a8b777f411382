// Calls that check another laboratory's sheet against its job: given by its parts, as a file, and as a file of the second edition.
ghost use Rattle.std.specs.Prelude.{◌≡◌};
ghost use Rattle.meaning.specs.Sheet.{check_answer, file_answer, second_answer};
ghost use Rattle.slots.specs.Told.{told};
ghost use Rattle.slots.specs.Sheets.{checked_call, checked_laid};
ghost use Rattle.api.specs.Heads.{head_from};
ghost use Rattle.api.specs.Sheets.{claimed_from};

use analysis::sheet::check_sheet;
use job::{check_file, check_second};
use records::{Head, Spread};
use slots::lay_checked;

// Checks a sheet against a job by its parts.
#[unsafe(no_mangle)]
pub extern "C" fn bench_check_parts(
    n: usize,
    flag: usize,
    p: usize,
    m: usize,
    blocks: &[u8],
    readings: &[i32],
    set: u64,
    sum: i64,
    claims: &[i64],
    has: u64,
    spread: f64,
    freedom: u64,
    answer: &mut [u64],
) -> u64
    ensures value { result ≡ told (checked_call (check_answer (head_from n flag p m) blocks.now readings.now set sum
        claims.now (claimed_from has spread freedom)) answer.old) }
    ensures answer_after { answer.new ≡ checked_laid (check_answer (head_from n flag p m) blocks.now readings.now set sum
        claims.now (claimed_from has spread freedom)) answer.old }
{
    let head = Head { n, flag, p, m };
    let claimed = claimed_from(has, spread, freedom);
    lay_checked(
        check_sheet(head, blocks, readings, set, sum, claims, claimed),
        answer,
    )
}

// Checks a sheet against a file of the first edition.
#[unsafe(no_mangle)]
pub extern "C" fn bench_check_file(
    bytes: &[u8],
    claims: &[i64],
    has: u64,
    spread: f64,
    freedom: u64,
    answer: &mut [u64],
) -> u64
    ensures value { result ≡ told (checked_call (file_answer bytes.now claims.now (claimed_from has spread freedom))
        answer.old) }
    ensures answer_after { answer.new ≡ checked_laid (file_answer bytes.now claims.now (claimed_from has spread freedom))
        answer.old }
{
    let claimed = claimed_from(has, spread, freedom);
    lay_checked(check_file(bytes, claims, claimed), answer)
}

// Checks a sheet against a file of the second edition.
#[unsafe(no_mangle)]
pub extern "C" fn bench_check_second(
    bytes: &[u8],
    claims: &[i64],
    has: u64,
    spread: f64,
    freedom: u64,
    answer: &mut [u64],
) -> u64
    ensures value { result ≡ told (checked_call (second_answer bytes.now claims.now (claimed_from has spread freedom))
        answer.old) }
    ensures answer_after { answer.new ≡ checked_laid (second_answer bytes.now claims.now (claimed_from has spread freedom))
        answer.old }
{
    let claimed = claimed_from(has, spread, freedom);
    lay_checked(check_second(bytes, claims, claimed), answer)
}

// A claimed spread: none where there is none, else the f64 with its degrees of freedom.
fn claimed_from(has: u64, spread: f64, freedom: u64) -> Option<Spread>
    ensures { result ≡ claimed_from has spread freedom }
{
    (has != 0).then_some(Spread {
        value: spread,
        freedom,
    })
}
