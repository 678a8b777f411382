// The differences that arise in a design, counted from its initial blocks alone: no block is developed. The shift that takes an element y to 0 takes
// every x of its block to the difference x less y, and leaves the fixed object where it is: so at e stands how often the difference e arises, and at n
// how often an element meets the fixed object.
ghost use Rattle.std.specs.Prelude.{map, ◌≡◌, true, ◌<◌};
ghost use Rattle.meaning.specs.Design.{occ, moved, company, opposition};
ghost use Rattle.meaning.specs.Refusals.{accepted, in_range};
ghost use Rattle.meaning.specs.Calls.{design_verdict};
ghost use Rattle.design.specs.Differences.{Side, Row, More, met_from, met, within_of, across_of, no_row, row_of, differences_of};

use crate::addition::{Addition, card_of};
use crate::blocks::pairs_refusal;
use records::{Differences, Head};
use verdicts::is_refused;

// How often each difference arises within the sides and across them: how often object e shares a side with object 0, and opposes it. Zeros on refusal.
pub fn count_differences(head: Head, blocks: &[u8]) -> Differences
    ensures { result ≡ differences_of head blocks.now }
{
    let mut within = [0u64; 50];
    let mut across = [0u64; 50];
    let verdict = pairs_refusal(head, blocks);
    // A refusal hands back zeros beside its verdict.
    if is_refused(verdict) {
        return Differences {
            verdict,
            within,
            across,
        };
    }
    let card = card_of(head);
    let addition = Addition { head, card: &card };
    count_blocks(addition, blocks, &mut within, &mut across);
    Differences {
        verdict,
        within,
        across,
    }
}

// Adds the differences of all initial blocks to rows of zeros.
fn count_blocks(addition: Addition, blocks: &[u8], within: &mut [u64], across: &mut [u64])
    requires { (design_verdict addition.head blocks.now ≡ accepted) × (within.old ≡ no_row) × (across.old ≡ no_row) }
    ensures within_after { within.new ≡ row_of (λ e. company addition.entry.head blocks.now e 0) }
    ensures across_after { across.new ≡ row_of (λ e. opposition addition.entry.head blocks.now e 0) }
{
    let m = addition.head.m;
    for j in 0..m {
        count_block(addition, blocks, j, within, across);
    }
}

// Adds the differences of initial block j, from the elements of its left and from those of its right.
fn count_block(addition: Addition, blocks: &[u8], j: usize, within: &mut [u64], across: &mut [u64])
    requires { (design_verdict addition.head blocks.now ≡ accepted) × (j < addition.head.m)
        × (Row 80000 within.old) × (Row 80000 across.old) }
    ensures more { More (λ e. within_of addition.entry.head blocks.now e j) within.old within.new }
    ensures more_2 { More (λ e. across_of addition.entry.head blocks.now e j) across.old across.new }
{
    let p = addition.head.p;
    let left = 2 * p * j;
    let right = left + p;
    let end = right + p;
    let on_left = &blocks[left..right];
    let on_right = &blocks[right..end];
    count_from(addition, on_left, on_right, within, across);
    count_from(addition, on_right, on_left, within, across);
}

// Adds the differences from the elements of a side: to the objects of that side, and to those of the other.
fn count_from(addition: Addition, own: &[u8], other: &[u8], within: &mut [u64], across: &mut [u64])
    requires { (Side addition.head own.now) × (Side addition.head other.now)
        × (Row 100000 within.old) × (Row 100000 across.old) }
    ensures more { More (λ e. met addition.entry.head e own.now own.now) within.old within.new }
    ensures more_2 { More (λ e. met addition.entry.head e other.now own.now) across.old across.new }
{
    for byte in own {
        count_one(addition, *byte, own, other, within, across);
    }
}

// Adds the differences from one element: its side and the other at the shift that takes it to 0. None are counted from the fixed object.
fn count_one(
    addition: Addition,
    byte: u8,
    own: &[u8],
    other: &[u8],
    within: &mut [u64],
    across: &mut [u64],
)
    requires { (in_range addition.head byte ≡ true) × (Side addition.head own.now) × (Side addition.head other.now)
        × (Row 200000 within.old) × (Row 200000 across.old) }
    ensures more { More (λ e. met_from addition.entry.head byte e own.now) within.old within.new }
    ensures more_2 { More (λ e. met_from addition.entry.head byte e other.now) across.old across.new }
{
    if byte == 255 {
        return;
    }
    let shift = addition.back(usize::from(byte));
    add_side(addition, shift, own, within);
    add_side(addition, shift, other, across);
}

// Adds a side at a shift: one for each of its objects.
fn add_side(addition: Addition, shift: usize, side: &[u8], counts: &mut [u64])
    requires { (shift < addition.head.n) × (Side addition.head side.now) × (Row 200000 counts.old) }
    ensures { More (λ e. occ e (map (moved addition.entry.head shift) side.now)) counts.old counts.new }
{
    for byte in side {
        let object = addition.object_of(shift, *byte);
        counts[object] += 1;
    }
}
