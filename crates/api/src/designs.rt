// Calls on designs: n residues, flag, p objects a side, m initial blocks, and the block list, in which 255 is the fixed object.
ghost use Rattle.std.specs.Prelude.{◌≡◌, length};
ghost use Rattle.meaning.specs.Calls.{design_verdict, develop_verdict, initial_verdict, initial_words, company_table, opposition_table, judged};
ghost use Rattle.slots.specs.Told.{told};
ghost use Rattle.slots.specs.Answers.{table_call, table_words, judged_call, judged_laid};
ghost use Rattle.api.specs.Heads.{head_from};
ghost use Rattle.api.specs.Rooms.{developed_words};

use balance::{company, judge, judge_by_differences, opposition};
use design::{develop, develop_initial, pairs_refusal};
use records::Head;
use slots::{lay_judged, lay_table, told};

// Why a block list is refused; the two tables below are refused so.
#[unsafe(no_mangle)]
pub extern "C" fn bench_pairs_refusal(
    n: usize,
    flag: usize,
    p: usize,
    m: usize,
    blocks: &[u8],
) -> u64
    ensures { result ≡ told (design_verdict (head_from n flag p m) blocks.now) }
{
    let head = Head { n, flag, p, m };
    told(pairs_refusal(head, blocks))
}

// Develops every initial block into the words.
#[unsafe(no_mangle)]
pub extern "C" fn bench_develop(
    n: usize,
    flag: usize,
    p: usize,
    m: usize,
    blocks: &[u8],
    words: &mut [u64],
) -> u64
    ensures value { result ≡ told (develop_verdict (head_from n flag p m) blocks.now (length words.old)) }
    ensures words_after { words.new ≡ developed_words (head_from n flag p m) blocks.now words.old }
{
    let head = Head { n, flag, p, m };
    told(develop(head, blocks, words))
}

// Develops initial block j into its own part of the words.
#[unsafe(no_mangle)]
pub extern "C" fn bench_develop_initial(
    n: usize,
    flag: usize,
    p: usize,
    m: usize,
    blocks: &[u8],
    j: usize,
    words: &mut [u64],
) -> u64
    ensures value { result ≡ told (initial_verdict (head_from n flag p m) blocks.now j (length words.old)) }
    ensures words_after { words.new ≡ initial_words (head_from n flag p m) blocks.now j words.old }
{
    let head = Head { n, flag, p, m };
    told(develop_initial(head, blocks, j, words))
}

// In how many blocks two objects share a side: 50 rows of 50, row after row.
#[unsafe(no_mangle)]
pub extern "C" fn bench_company(
    n: usize,
    flag: usize,
    p: usize,
    m: usize,
    blocks: &[u8],
    table: &mut [u64],
) -> u64
    ensures value { result ≡ told (table_call (design_verdict (head_from n flag p m) blocks.now) table.old) }
    ensures table_after { table.new ≡ table_words (design_verdict (head_from n flag p m) blocks.now)
        (company_table (head_from n flag p m) blocks.now) table.old }
{
    let head = Head { n, flag, p, m };
    lay_table(pairs_refusal(head, blocks), &company(head, blocks), table)
}

// In how many blocks two objects stand on opposite sides: 50 rows of 50, row after row.
#[unsafe(no_mangle)]
pub extern "C" fn bench_opposition(
    n: usize,
    flag: usize,
    p: usize,
    m: usize,
    blocks: &[u8],
    table: &mut [u64],
) -> u64
    ensures value { result ≡ told (table_call (design_verdict (head_from n flag p m) blocks.now) table.old) }
    ensures table_after { table.new ≡ table_words (design_verdict (head_from n flag p m) blocks.now)
        (opposition_table (head_from n flag p m) blocks.now) table.old }
{
    let head = Head { n, flag, p, m };
    lay_table(
        pairs_refusal(head, blocks),
        &opposition(head, blocks),
        table,
    )
}

// Judges a design.
#[unsafe(no_mangle)]
pub extern "C" fn bench_judge(
    n: usize,
    flag: usize,
    p: usize,
    m: usize,
    blocks: &[u8],
    answer: &mut [u64],
) -> u64
    ensures value { result ≡ told (judged_call (judged (head_from n flag p m) blocks.now) answer.old) }
    ensures answer_after { answer.new ≡ judged_laid (judged (head_from n flag p m) blocks.now) answer.old }
{
    let head = Head { n, flag, p, m };
    lay_judged(judge(head, blocks), answer)
}

// Judges a design by the differences of its initial blocks: the same answer, in less time.
#[unsafe(no_mangle)]
pub extern "C" fn bench_judge_by_differences(
    n: usize,
    flag: usize,
    p: usize,
    m: usize,
    blocks: &[u8],
    answer: &mut [u64],
) -> u64
    ensures value { result ≡ told (judged_call (judged (head_from n flag p m) blocks.now) answer.old) }
    ensures answer_after { answer.new ≡ judged_laid (judged (head_from n flag p m) blocks.now) answer.old }
{
    let head = Head { n, flag, p, m };
    lay_judged(judge_by_differences(head, blocks), answer)
}
