// Calls for practice: readings from true values, and the file of a practice job.
ghost use Rattle.std.specs.Prelude.{◌≡◌, length};
ghost use Rattle.meaning.specs.Practice.{practice_verdict, practice_after};
ghost use Rattle.slots.specs.Told.{told};
ghost use Rattle.slots.specs.Answers.{written_call, written_laid};
ghost use Rattle.api.specs.Heads.{head_from};
ghost use Rattle.api.specs.Practising.{practice_written, write_practice};

use practice::{practice, practice_file};
use records::Head;
use slots::{lay_written, told};

// The practice readings of all blocks.
#[unsafe(no_mangle)]
pub extern "C" fn bench_practice(
    n: usize,
    flag: usize,
    p: usize,
    m: usize,
    blocks: &[u8],
    truths: &[i32],
    start: u32,
    width: usize,
    readings: &mut [i32],
) -> u64
    ensures value { result ≡ told (practice_verdict (head_from n flag p m) blocks.now truths.now width
        (length readings.old)) }
    ensures readings_after { readings.new ≡ practice_after (head_from n flag p m) blocks.now truths.now start width
        readings.old }
{
    let head = Head { n, flag, p, m };
    told(practice(head, blocks, truths, start, width, readings))
}

// Writes the file of a practice job to the front of `out`. Without a slot the tests alone are made.
#[tactic(auto, using(crate::proofs::Slots::file_calls), unfolding(slots::specs::Answers::written_call, meaning::specs::Practice::practice_file_verdict))]
#[unsafe(no_mangle)]
pub extern "C" fn bench_practice_file(
    n: usize,
    flag: usize,
    p: usize,
    m: usize,
    blocks: &[u8],
    truths: &[i32],
    start: u32,
    width: usize,
    set: u64,
    out: &mut [u8],
    answer: &mut [u64],
) -> u64
    ensures value { result ≡ told (written_call (practice_written (head_from n flag p m) blocks.now truths.now width set
        out.old) answer.old) }
    ensures out_after { out.new ≡ write_practice (head_from n flag p m) blocks.now truths.now start width set
        out.old answer.old }
    ensures answer_after { answer.new ≡ written_laid (practice_written (head_from n flag p m) blocks.now truths.now width set
        out.old) answer.old }
{
    let head = Head { n, flag, p, m };
    if answer.is_empty() {
        return told(practice_file(head, blocks, truths, start, width, set, &mut [0]).verdict);
    }
    lay_written(
        practice_file(head, blocks, truths, start, width, set, out),
        answer,
    )
}
