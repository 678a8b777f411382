// The verdict on any blocks in groups: whether every two objects of one group meet alike, and every two of different groups, read off the two pair
// tables of their words.
ghost use Rattle.std.specs.Prelude.{◌≡◌, true, ◌≤◌, ◌<◌, length};
ghost use Rattle.meaning.specs.Groups.{even_groups, meets_as, grouped_answer};
ghost use Rattle.groups.specs.Tables.{row_alike, tables_alike, tables_grouped, no_grouped};

use crate::labels::first_other;
use crate::lists::{list_refusal, write_words};
use balance::{count_company, count_opposition};
use records::{GroupCounts, Grouped, Refusal, Verdict};
use verdicts::is_refused;

// The verdict on some blocks, with the four counts where they are partially balanced with respect to the groups.
pub fn grouped(count: usize, v: usize, p: usize, blocks: &[u8], groups: &[u8]) -> Grouped
    ensures { result ≡ grouped_answer count v p blocks.now groups.now }
{
    let listed = list_refusal(count, v, p, blocks, groups);
    // A refusal hands back zeros beside its verdict.
    if is_refused(listed) {
        return no_grouped(listed);
    }
    let mut words = [0u64; 2600];
    write_words(count, p, blocks, &mut words);
    let company = count_company(&words, count);
    let opposition = count_opposition(&words, count);
    judge_groups(v, groups, company, opposition)
}

// The verdict on two tables of v objects in groups, and the four counts where every pair has those of object 0 with its mate, or with its stranger.
fn judge_groups(
    v: usize,
    groups: &[u8],
    company: [[u64; 50]; 50],
    opposition: [[u64; 50]; 50],
) -> Grouped
    requires { (v ≤ 50) × (length groups.now ≡ v) × (even_groups groups.now ≡ true) }
    ensures { result ≡ tables_grouped v groups.now company opposition }
{
    let near = first_other(groups, true);
    let far = first_other(groups, false);
    let counts = GroupCounts {
        l11: company[near][0],
        l21: opposition[near][0],
        l12: company[far][0],
        l22: opposition[far][0],
    };
    if !tables_alike(&company, &opposition, v, groups, counts) {
        return no_grouped(Err(Refusal {
            number: 6,
            place: 0,
        }));
    }
    Grouped {
        verdict: Ok(()),
        counts,
    }
}

// Whether every pair of the first v objects has the counts of its kind. A row is told the number of its object, so the loop goes by the number.
fn tables_alike(
    company: &[[u64; 50]; 50],
    opposition: &[[u64; 50]; 50],
    v: usize,
    groups: &[u8],
    counts: GroupCounts,
) -> bool
    requires { (v ≤ 50) × (v ≤ length groups.now) }
    ensures { result ≡ tables_alike counts groups.now company.now opposition.now v }
{
    for i in 0..v {
        if !row_alike(&company[i], &opposition[i], i, groups, counts) {
            return false;
        }
    }
    true
}

// Whether object i has the counts of their kind with every object before it. Three lists are read at one place, so the loop goes by the place.
fn row_alike(
    company: &[u64; 50],
    opposition: &[u64; 50],
    i: usize,
    groups: &[u8],
    counts: GroupCounts,
) -> bool
    requires { (i < 50) × (i < length groups.now) }
    ensures { result ≡ row_alike counts groups.now i company.now opposition.now i }
{
    for j in 0..i {
        let one = groups[i] == groups[j];
        if !meets_as(counts, one, company[j], opposition[j]) {
            return false;
        }
    }
    true
}

// Whether a pair of one group, or of two, shares a side and opposes as often as the counts say.
fn meets_as(counts: GroupCounts, one: bool, together: u64, against: u64) -> bool
    ensures { result ≡ meets_as counts one together against }
{
    if one {
        together == counts.l11 && against == counts.l21
    } else {
        together == counts.l12 && against == counts.l22
    }
}

// What a refused call hands back: its verdict, and zeros.
fn no_grouped(verdict: Verdict) -> Grouped
    ensures { result ≡ no_grouped verdict }
{
    let counts = GroupCounts {
        l11: 0,
        l21: 0,
        l12: 0,
        l22: 0,
    };
    Grouped { verdict, counts }
}
