// The two pair tables of a design, each handed back whole. Why one holds zeros a second call on the same input tells, `design::pairs_refusal`.
// The two functions stay apart: each has a promise of its own, and only a few lines that one function with a flag for both could hold.
ghost use Rattle.std.specs.Prelude.{◌≡◌};
ghost use Rattle.meaning.specs.Calls.{company_table, opposition_table};

use crate::counting::{count_company, count_opposition};
use design::develop;
use records::Head;
use verdicts::is_refused;

// In how many blocks two objects share a side: row i, column j. On the diagonal, in how many object i stands. Zeros beyond the objects, and on refusal.
pub fn company(head: Head, blocks: &[u8]) -> [[u64; 50]; 50]
    ensures { result ≡ company_table head blocks.now }
{
    let mut words = [0u64; 2600];
    // A refusal hands back a table of zeros.
    if is_refused(develop(head, blocks, &mut words)) {
        return [[0u64; 50]; 50];
    }
    count_company(&words, head.m * head.n)
}

// In how many blocks two objects stand on opposite sides: row i, column j. Zeros on the diagonal, beyond the objects, and on refusal.
pub fn opposition(head: Head, blocks: &[u8]) -> [[u64; 50]; 50]
    ensures { result ≡ opposition_table head blocks.now }
{
    let mut words = [0u64; 2600];
    // A refusal hands back a table of zeros.
    if is_refused(develop(head, blocks, &mut words)) {
        return [[0u64; 50]; 50];
    }
    count_opposition(&words, head.m * head.n)
}
