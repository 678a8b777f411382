// The verdict on a design by the differences of its initial blocks: no block is developed. A difference that arises is how often two objects meet that
// are so far apart, whichever two, so the row of object 0 tells of all.
ghost use Rattle.std.specs.Prelude.{◌≡◌, ◌≤◌, get_or};
ghost use Rattle.meaning.specs.Calls.{judged};
ghost use Rattle.balance.specs.Tables.{rows_judged};

use crate::verdict::{judgement, row_even};
use design::{count_differences, objects};
use records::{Head, Judged};
use verdicts::{is_refused, no_judgement};

// The verdict on a design, with its parameters where it is balanced: what `judge` answers, from the initial blocks alone.
pub fn judge_by_differences(head: Head, blocks: &[u8]) -> Judged
    ensures { result ≡ judged head blocks.now }
{
    let counted = count_differences(head, blocks);
    let verdict = counted.verdict;
    // A refusal hands back zeros beside its verdict, which `?` would not.
    if is_refused(verdict) {
        return no_judgement(verdict);
    }
    let v = objects(head);
    let b = head.m * head.n;
    let p = head.p as u64;
    let within = counted.within;
    let across = counted.across;
    judge_rows(v, b, p, within, across)
}

// The verdict on the row of object 0 in each table, of v objects in b blocks with p objects a side: each other object is to have the entries of 1.
fn judge_rows(v: usize, b: usize, p: u64, within: [u64; 50], across: [u64; 50]) -> Judged
    requires { (2 ≤ v) × (v ≤ 50) × (get_or across 1 0 ≤ 2600) }
    ensures { result ≡ rows_judged v b p within across }
{
    let l1 = within[1];
    let l2 = across[1];
    let even = row_even(&within, &across, 1, v - 1, l1, l2);
    judgement(even, v, b, p, l1, l2)
}
