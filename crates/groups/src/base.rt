// The grouped set of a design: every object replaced by its g members, which are numbered gi to gi + g - 1 for object i. The words of the design are
// developed into the lent room, and each is then replaced by the word of its members.
ghost use Rattle.std.specs.Prelude.{◌≡◌, ◌*◌, ◌≤◌, length, get_or};
ghost use Rattle.algebra.specs.Buffers.{over};
ghost use Rattle.meaning.specs.Design.{objects, parameters_of};
ghost use Rattle.meaning.specs.Refusals.{accepted};
ghost use Rattle.meaning.specs.Calls.{judge_verdict};
ghost use Rattle.meaning.specs.Groups.{base_answer, base_words};
ghost use Rattle.groups.specs.Words.{word_in_members};
ghost use Rattle.groups.specs.Base.{sizes_verdict, no_set, in_groups_of, laid_answer, laid_words};

use balance::judge_by_differences;
use design::{develop, objects, sized};
use records::{GroupCounts, GroupParameters, GroupedSet, Head, Parameters, Refusal, Verdict};
use verdicts::is_refused;
use words::holds;

// Writes the words of the grouped blocks, and hands back the parameters of the grouped set. Later words stay.
pub fn group_base(head: Head, blocks: &[u8], g: usize, words: &mut [u64]) -> GroupedSet
    ensures value { result ≡ base_answer head blocks.now g (length words.old) }
    ensures words_after { words.new ≡ base_words head blocks.now g words.old }
{
    let fits = sizes_refusal(head, blocks, g);
    // A refusal hands back zeros beside its verdict.
    if is_refused(fits) {
        return no_set(fits);
    }
    let judged = judge_by_differences(head, blocks);
    let verdict = judged.verdict;
    let base = judged.parameters;
    if is_refused(verdict) {
        return no_set(verdict);
    }
    lay_groups(head, blocks, g, base, words)
}

// Writes the words of the grouped blocks of a balanced design, where there is room.
fn lay_groups(
    head: Head,
    blocks: &[u8],
    g: usize,
    base: Parameters,
    words: &mut [u64],
) -> GroupedSet
    requires { (judge_verdict head blocks.now ≡ accepted) × (base ≡ parameters_of head blocks.now) × (g ≤ 50) × (g * objects head ≤ 50) }
    ensures value { result ≡ laid_answer head blocks.now g (length words.old) }
    ensures words_after { words.new ≡ laid_words head blocks.now g words.old }
{
    let developed = develop(head, blocks, words);
    // A refusal hands back zeros beside its verdict.
    if is_refused(developed) {
        return no_set(developed);
    }
    let v = objects(head);
    let b = head.m * head.n;
    group_words(v, g, 2 * b, words);
    let parameters = in_groups(g as u64, base);
    GroupedSet {
        verdict: Ok(()),
        parameters,
    }
}

// The tests before those of the blocks: the sizes, the length of the list, then the groups.
fn sizes_refusal(head: Head, blocks: &[u8], g: usize) -> Verdict
    ensures { result ≡ sizes_verdict head (length blocks.now) g }
{
    if !sized(head) {
        return Err(Refusal {
            number: 4,
            place: 0,
        });
    }
    let p = head.p;
    let m = head.m;
    if blocks.len() != 2 * p * m {
        return Err(Refusal {
            number: 3,
            place: 0,
        });
    }
    if !(2..=50).contains(&g) || 50 < g * objects(head) {
        return Err(Refusal {
            number: 14,
            place: 0,
        });
    }
    Ok(())
}

// Replaces each of the first c words, of objects below v, by the word of its members.
fn group_words(v: usize, g: usize, c: usize, words: &mut [u64])
    requires { (g ≤ 50) × (v ≤ 50) × (g * v ≤ 50) × (c ≤ length words.old) }
    ensures { words.new ≡ over c (λ k. word_in_members g v (get_or words.old k 0)) words.old }
{
    for word in &mut words[..c] {
        *word = group_word(v, g, *word);
    }
}

// A word of objects below v, with every object replaced by its members.
fn group_word(v: usize, g: usize, word: u64) -> u64
    requires { (g ≤ 50) × (v ≤ 50) × (g * v ≤ 50) }
    ensures { result ≡ word_in_members g v word }
{
    let members = (1u64 << g) - 1;
    let mut sum: u64 = 0;
    for i in 0..v {
        sum += holds(word, i) * (members << (g * i));
    }
    sum
}

// The parameters of the grouped set of a design.
fn in_groups(g: u64, parameters: Parameters) -> GroupParameters
    requires { (g ≤ 50) × (parameters.v ≤ 50) × (parameters.p ≤ 50) }
    ensures { result ≡ in_groups_of g parameters }
{
    let r = parameters.r;
    let counts = GroupCounts {
        l11: r,
        l21: 0,
        l12: parameters.l1,
        l22: parameters.l2,
    };
    GroupParameters {
        v: g * parameters.v,
        b: parameters.b,
        r,
        p: g * parameters.p,
        counts,
    }
}

// What a refused call hands back: its verdict, and zeros.
fn no_set(verdict: Verdict) -> GroupedSet
    ensures { result ≡ no_set verdict }
{
    let counts = GroupCounts {
        l11: 0,
        l21: 0,
        l12: 0,
        l22: 0,
    };
    let parameters = GroupParameters {
        v: 0,
        b: 0,
        r: 0,
        p: 0,
        counts,
    };
    GroupedSet {
        verdict,
        parameters,
    }
}
