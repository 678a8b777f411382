// The verdict on a design: whether every two objects meet alike, read off the two pair tables, and the parameters that follow from it.
ghost use Rattle.std.specs.Prelude.{◌≡◌, ◌+◌, ◌-◌, ◌≤◌};
ghost use Rattle.algebra.specs.Tables.{entry};
ghost use Rattle.meaning.specs.Calls.{judged};
ghost use Rattle.balance.specs.Tables.{row_even, tables_even, judged_by, tables_judged};

use crate::counting::{count_company, count_opposition};
use design::{develop, objects};
use records::{Head, Judged, Parameters, Refusal};
use verdicts::{is_refused, no_judgement};
use words::ones;

// The verdict on a design, with its parameters where it is balanced. The design is developed once; the side size is that of a side's word.
pub fn judge(head: Head, blocks: &[u8]) -> Judged
    ensures { result ≡ judged head blocks.now }
{
    let mut words = [0u64; 2600];
    let verdict = develop(head, blocks, &mut words);
    // A refusal hands back zeros beside its verdict, which `?` would not.
    if is_refused(verdict) {
        return no_judgement(verdict);
    }
    let v = objects(head);
    let b = head.m * head.n;
    let p = ones(words[0]);
    let company = count_company(&words, b);
    let opposition = count_opposition(&words, b);
    judge_tables(v, b, p, company, opposition)
}

// The verdict on two tables of v objects in b blocks with p objects a side, and the parameters where every pair has the entries of the objects 1 and 0.
fn judge_tables(
    v: usize,
    b: usize,
    p: u64,
    company: [[u64; 50]; 50],
    opposition: [[u64; 50]; 50],
) -> Judged
    requires { (1 ≤ v) × (v ≤ 50) × (entry opposition 1 0 ≤ 2600) }
    ensures { result ≡ tables_judged v b p company opposition }
{
    let l1 = company[1][0];
    let l2 = opposition[1][0];
    let even = tables_even(&company, &opposition, v, l1, l2);
    judgement(even, v, b, p, l1, l2)
}

// The judgement where every two of v objects share a side l1 times and oppose l2 times; where they do not, they are unbalanced.
#[tactic(auto, unfolding(crate::specs::Tables::judged_by))]
pub(crate) fn judgement(even: bool, v: usize, b: usize, p: u64, l1: u64, l2: u64) -> Judged
    requires { (1 ≤ v) × (v ≤ 50) × (l2 ≤ 2600) }
    ensures { result ≡ judged_by even v b p l1 l2 }
{
    if !even {
        return no_judgement(Err(Refusal {
            number: 6,
            place: 0,
        }));
    }
    let beta = l2.saturating_sub(l1);
    let r = beta * (v as u64 - 1);
    let parameters = Parameters {
        v: v as u64,
        b: b as u64,
        r,
        p,
        l1,
        l2,
    };
    Judged {
        verdict: Ok(()),
        parameters,
    }
}

// Whether so many entries of a row of each table, from one on, are l1 and l2.
pub(crate) fn row_even(
    company: &[u64; 50],
    opposition: &[u64; 50],
    from: usize,
    count: usize,
    l1: u64,
    l2: u64,
) -> bool
    requires { count + from ≤ 50 }
    ensures { result ≡ row_even company.now opposition.now l1 l2 from count }
{
    let end = from + count;
    company[from..end].iter().all(|entry| *entry == l1)
        && opposition[from..end].iter().all(|entry| *entry == l2)
}

// Whether every pair of the first v objects has the entries l1 and l2. The rows go by number, since row i is asked for its first i entries.
fn tables_even(
    company: &[[u64; 50]; 50],
    opposition: &[[u64; 50]; 50],
    v: usize,
    l1: u64,
    l2: u64,
) -> bool
    requires { v ≤ 50 }
    ensures { result ≡ tables_even company.now opposition.now l1 l2 v }
{
    // The number of the row is how much of it is looked at; in a closure its bound would have to be asked for again.
    for i in 0..v {
        if !row_even(&company[i], &opposition[i], 0, i, l1, l2) {
            return false;
        }
    }
    true
}
