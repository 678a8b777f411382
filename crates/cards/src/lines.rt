// The lines of a card that are printed for the four fields of a job. Each is put into lent bytes from a place on, and the answer is the place after it.
ghost use Rattle.std.specs.Prelude.{cond, [], ◌∷◌, ◌++◌, ◌≡◌, ◌+◌, ◌*◌, ◌%◌, ◌≤◌, ◌<◌, eqb, ltb, length};
ghost use Rattle.algebra.specs.Buffers.{Wrote};
ghost use Rattle.meaning.specs.Text.{ascii, signed_text, each, line};
ghost use Rattle.meaning.specs.CardText.{kind_line, fixed_line, object_text, side_text, block_line, member_text, reading_text};

use printing::{put_byte, put_number, put_signed, put_text};
use records::Head;
use words::holds;

// The word for how elements are added.
#[tactic(auto, unfolding(meaning::specs::Text::ascii))]
fn put_addition(out: &mut [u8], at: usize, flag: usize) -> usize
    ensures { Wrote out.old at (ascii (cond (ltb flag 2) "residues" "field")) out.new result }
{
    if flag < 2 {
        put_text(out, at, b"residues")
    } else {
        put_text(out, at, b"field")
    }
}

// How elements are added, and how many there are.
pub(crate) fn put_kind(out: &mut [u8], at: usize, head: Head) -> usize
    ensures { Wrote out.old at (kind_line head) out.new result }
{
    let word_end = put_addition(out, at, head.flag);
    let size_end = put_number(out, word_end, head.n as u64);
    put_byte(out, size_end, 10)
}

// Whether the fixed object takes part.
#[tactic(auto, unfolding(meaning::specs::Text::ascii))]
fn put_taking_part(out: &mut [u8], at: usize, flag: usize) -> usize
    ensures { Wrote out.old at (ascii (cond (eqb (flag % 2) 1) " yes" " no")) out.new result }
{
    if flag % 2 == 1 {
        put_text(out, at, b" yes")
    } else {
        put_text(out, at, b" no")
    }
}

// The line of the fixed object.
#[tactic(auto, unfolding(meaning::specs::Text::ascii))]
pub(crate) fn put_fixed(out: &mut [u8], at: usize, head: Head) -> usize
    ensures { Wrote out.old at (fixed_line head) out.new result }
{
    let word_end = put_text(out, at, b"fixed");
    let answer_end = put_taking_part(out, word_end, head.flag);
    put_byte(out, answer_end, 10)
}

// An object of a block, a space before it.
#[tactic(auto, unfolding(meaning::specs::Text::ascii))]
fn put_object(out: &mut [u8], at: usize, object: u8) -> usize
    ensures { Wrote out.old at (object_text object) out.new result }
{
    if object == 255 {
        put_text(out, at, b" inf")
    } else {
        put_number(out, at, object as u64)
    }
}

// The objects of a side that starts at a place of the block list.
fn put_side(out: &mut [u8], at: usize, head: Head, blocks: &[u8], start: usize) -> usize
    requires { start + head.p ≤ length blocks.now }
    ensures { Wrote out.old at (side_text head blocks.now start) out.new result }
{
    let mut place = at;
    for object in &blocks[start..start + head.p] {
        place = put_object(out, place, *object);
    }
    place
}

// Initial block k.
#[tactic(auto, unfolding(meaning::specs::Text::ascii))]
fn put_block(out: &mut [u8], at: usize, head: Head, blocks: &[u8], k: usize) -> usize
    requires { 2 * head.p * k + 2 * head.p ≤ length blocks.now }
    ensures { Wrote out.old at (block_line head blocks.now k) out.new result }
{
    let start = 2 * head.p * k;
    let word_end = put_text(out, at, b"initial");
    let left_end = put_side(out, word_end, head, blocks, start);
    let bar_end = put_text(out, left_end, b" |");
    let right_end = put_side(out, bar_end, head, blocks, start + head.p);
    put_byte(out, right_end, 10)
}

// A line for each initial block.
pub(crate) fn put_blocks(out: &mut [u8], at: usize, head: Head, blocks: &[u8]) -> usize
    requires { 2 * head.p * head.m ≤ length blocks.now }
    ensures { Wrote out.old at (each head.m (block_line head blocks.now)) out.new result }
{
    let mut place = at;
    for k in 0..head.m {
        place = put_block(out, place, head, blocks, k);
    }
    place
}

// Object i, where it stands in the restraint.
fn put_member(out: &mut [u8], at: usize, set: u64, i: usize) -> usize
    ensures { Wrote out.old at (member_text set i) out.new result }
{
    if holds(set, i) == 1 {
        put_number(out, at, i as u64)
    } else {
        at
    }
}

// The members of the restraint.
fn put_members(out: &mut [u8], at: usize, count: usize, set: u64) -> usize
    ensures { Wrote out.old at (each count (member_text set)) out.new result }
{
    let mut place = at;
    for i in 0..count {
        place = put_member(out, place, set, i);
    }
    place
}

// The restraint: its members among so many objects, and the accepted sum.
#[tactic(auto, unfolding(meaning::specs::Text::ascii))]
pub(crate) fn put_restraint(out: &mut [u8], at: usize, count: usize, set: u64, sum: i64) -> usize
    ensures { Wrote out.old at (line "restraint" (each count (member_text set) ++ ascii " =" ++ signed_text sum)) out.new result }
{
    let word_end = put_text(out, at, b"restraint");
    let members_end = put_members(out, word_end, count, set);
    let sign_end = put_text(out, members_end, b" =");
    let sum_end = put_signed(out, sign_end, sum);
    put_byte(out, sum_end, 10)
}

// A newline before the first reading of an initial block.
fn put_break(out: &mut [u8], at: usize, n: usize, k: usize) -> usize
    requires { 0 < n }
    ensures { Wrote out.old at (cond (eqb (k % n) 0) (10 ∷ []) []) out.new result }
{
    if k % n == 0 {
        put_byte(out, at, 10)
    } else {
        at
    }
}

// The readings, those of an initial block on a line of their own.
#[tactic(auto, unfolding(meaning::specs::Text::ascii))]
pub(crate) fn put_readings(out: &mut [u8], at: usize, head: Head, readings: &[i32]) -> usize
    requires { 0 < head.n }
    ensures { Wrote out.old at
        (line "readings" (each (length readings.now) (reading_text head readings.now))) out.new result }
{
    let word_end = put_text(out, at, b"readings");
    let readings_end = put_each_reading(out, word_end, head, readings);
    put_byte(out, readings_end, 10)
}

// Each reading.
fn put_each_reading(out: &mut [u8], at: usize, head: Head, readings: &[i32]) -> usize
    requires { 0 < head.n }
    ensures { Wrote out.old at
        (each (length readings.now) (reading_text head readings.now)) out.new result }
{
    let mut place = at;
    for (k, reading) in readings.iter().enumerate() {
        let start = put_break(out, place, head.n, k);
        place = put_signed(out, start, i64::from(*reading));
    }
    place
}
