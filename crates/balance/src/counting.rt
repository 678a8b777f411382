// How often two objects meet in the words of some blocks, counted into a table that is handed back whole. A block adds only to the rows and columns
// of its own objects.
ghost use Rattle.std.specs.Prelude.{◌≡◌, true, false, ℕ, ◌^◌, ◌≤◌, ◌<◌, get_or};
ghost use Rattle.algebra.specs.Tables.{entry};
ghost use Rattle.words.specs.Bits.{opposition_of};
ghost use Rattle.balance.specs.Meetings.{row_more, table_more, countable, counted};

use words::{in_company, in_opposition, lowest, without_lowest};

// In how many of the first b blocks two objects share a side: row i, column j; an object with itself, in how many it stands.
pub fn count_company(words: &[u64], b: usize) -> [[u64; 50]; 50]
    ensures { result ≡ counted false words.now b }
{
    count_meetings(words, b, false)
}

// In how many of the first b blocks two objects stand on opposite sides: row i, column j.
pub fn count_opposition(words: &[u64], b: usize) -> [[u64; 50]; 50]
    ensures { result ≡ counted true words.now b }
{
    count_meetings(words, b, true)
}

// In how many of the first b blocks two objects stand on opposite sides, or share one. Zeros where the words cannot be counted.
#[tactic(auto, using(crate::proofs::counting::Countable::countable_is))]
fn count_meetings(words: &[u64], b: usize, opposite: bool) -> [[u64; 50]; 50]
    ensures { result ≡ counted opposite words.now b }
{
    let mut table = [[0u64; 50]; 50];
    if !can_count(words, b) {
        return table;
    }
    for k in 0..b {
        let left = words[2 * k];
        let right = words[2 * k + 1];
        if opposite {
            add_meetings(left, right, &mut table);
            add_meetings(right, left, &mut table);
        } else {
            add_meetings(left, left, &mut table);
            add_meetings(right, right, &mut table);
        }
    }
    table
}

// Whether the words of b blocks can be counted into a table of 50 objects: there are so many of them, for at most 1,300 blocks, and none names an
// object from 50 on.
fn can_count(words: &[u64], b: usize) -> bool
    ensures { result ≡ countable words.now b }
{
    b <= 1300 && 2 * b <= words.len() && words[..2 * b].iter().all(|word| *word < 1 << 50)
}

// Adds to the rows of the objects of one side their meetings with the objects of another. A side with itself: their company on it.
fn add_meetings(own: u64, other: u64, table: &mut [[u64; 50]; 50])
    requires sides_bound { (own < 2 ^ 50) × (other < 2 ^ 50) }
    requires by_index { (i j : ℕ) → entry table.old i j ≤ 2600 }
    ensures { table.new ≡ table_more (opposition_of own other) table.old }
{
    let mut rest = own;
    let mut i = lowest(rest);
    while i < 64 {
        add_row(own, other, i, &mut table[i]);
        rest = without_lowest(rest);
        i = lowest(rest);
    }
}

// Adds to the row of object i its meetings with the objects of the other side.
fn add_row(own: u64, other: u64, i: usize, row: &mut [u64; 50])
    requires { (other < 2 ^ 50) × ((j : ℕ) → get_or row.old j 0 ≤ 2601) }
    ensures { row.new ≡ row_more (opposition_of own other i) row.old }
{
    let mut rest = other;
    let mut j = lowest(rest);
    while j < 64 {
        row[j] += meetings(own, other, i, j);
        rest = without_lowest(rest);
        j = lowest(rest);
    }
}

// 1 where object i of one side meets object j of another, and 0 otherwise: in company where the two are one side, else in opposition.
fn meetings(own: u64, other: u64, i: usize, j: usize) -> u64
    ensures { result ≡ opposition_of own other i j }
{
    if own == other {
        in_company(own, i, j)
    } else {
        in_opposition(own, other, i, j)
    }
}
