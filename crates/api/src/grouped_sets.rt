// Calls on blocks in groups: any blocks with a group number for each object, and the grouped set of a design.
ghost use Rattle.std.specs.Prelude.{◌≡◌};
ghost use Rattle.meaning.specs.Groups.{grouped_answer};
ghost use Rattle.slots.specs.Told.{told};
ghost use Rattle.slots.specs.Groups.{grouped_call, grouped_laid, group_set_laid};
ghost use Rattle.api.specs.Heads.{head_from};
ghost use Rattle.api.specs.Groups.{group_set, group_base_call, group_base_words};

use groups::{group_base, grouped};
use records::Head;
use slots::{lay_group_set, lay_grouped, told};

// Judges any blocks with respect to groups.
#[unsafe(no_mangle)]
pub extern "C" fn bench_grouped(
    count: usize,
    v: usize,
    p: usize,
    blocks: &[u8],
    groups: &[u8],
    answer: &mut [u64],
) -> u64
    ensures value { result ≡ told (grouped_call (grouped_answer count v p blocks.now groups.now) answer.old) }
    ensures answer_after { answer.new ≡ grouped_laid (grouped_answer count v p blocks.now groups.now) answer.old }
{
    lay_grouped(grouped(count, v, p, blocks, groups), answer)
}

// Writes the words of the grouped set of a design. Where the slots are too few the tests alone are made, and nothing is written.
#[tactic(auto, using(crate::proofs::Grouping::group_calls), unfolding(slots::specs::Groups::group_set_call))]
#[unsafe(no_mangle)]
pub extern "C" fn bench_group_base(
    n: usize,
    flag: usize,
    p: usize,
    m: usize,
    blocks: &[u8],
    g: usize,
    words: &mut [u64],
    answer: &mut [u64],
) -> u64
    ensures value { result ≡ told (group_base_call (head_from n flag p m) blocks.now g words.old answer.old) }
    ensures words_after { words.new ≡ group_base_words (head_from n flag p m) blocks.now g words.old answer.old }
    ensures answer_after { answer.new ≡ group_set_laid (group_set (head_from n flag p m) blocks.now g words.old)
        answer.old }
{
    let head = Head { n, flag, p, m };
    if answer.len() < 8 {
        return told(group_base(head, blocks, g, &mut [0]).verdict);
    }
    lay_group_set(group_base(head, blocks, g, words), answer)
}
