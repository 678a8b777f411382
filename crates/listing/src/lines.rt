// The lines of the listing: a value, a deviation, the spread, the design, a refusal. Each is put into lent bytes from a place on, and the answer is
// the place after it.
ghost use Rattle.algebra.specs.Buffers.{Wrote};
ghost use Rattle.meaning.specs.Text.{value_line, dev_line, last_word, spread_line, design_line, refused_line};

use printing::{put_byte, put_number, put_signed, put_text, put_wide};
use records::{Parameters, Spread, Spreading};

// An object's value: a fraction, and its published hundredths.
pub(crate) fn put_value(
    out: &mut [u8],
    at: usize,
    object: usize,
    numerator: i64,
    denominator: u64,
    hundredths: i64,
) -> usize
    ensures { Wrote out.old at (value_line object numerator denominator hundredths) out.new result }
{
    let word_end = put_text(out, at, b"value");
    let object_end = put_number(out, word_end, object as u64);
    let numerator_end = put_signed(out, object_end, numerator);
    let denominator_end = put_number(out, numerator_end, denominator);
    let hundredths_end = put_signed(out, denominator_end, hundredths);
    put_byte(out, hundredths_end, 10)
}

// A block's deviation, a fraction.
pub(crate) fn put_deviation(
    out: &mut [u8],
    at: usize,
    block: usize,
    numerator: i64,
    denominator: u64,
) -> usize
    ensures { Wrote out.old at (dev_line block numerator denominator) out.new result }
{
    let word_end = put_text(out, at, b"dev");
    let block_end = put_number(out, word_end, block as u64);
    let numerator_end = put_signed(out, block_end, numerator);
    let denominator_end = put_number(out, numerator_end, denominator);
    put_byte(out, denominator_end, 10)
}

// The hundredths of a spread, or none. It goes by the enum: a true spread may have 0 hundredths.
fn put_last(out: &mut [u8], at: usize, spread: Option<Spread>, hundredths: u64) -> usize
    ensures { Wrote out.old at (last_word spread hundredths) out.new result }
{
    match spread {
        Some(_) => put_number(out, at, hundredths),
        None => put_text(out, at, b" none"),
    }
}

// What the spread is made from, and the spread.
pub(crate) fn put_spread(out: &mut [u8], at: usize, spreading: Spreading) -> usize
    ensures { Wrote out.old at (spread_line spreading) out.new result }
{
    let word_end = put_text(out, at, b"spread");
    let q = spreading.q;
    let q_end = put_wide(out, word_end, q);
    let vbeta_end = put_number(out, q_end, spreading.vbeta);
    let freedom_end = put_number(out, vbeta_end, spreading.freedom);
    let last_end = put_last(out, freedom_end, spreading.spread, spreading.hundredths);
    put_byte(out, last_end, 10)
}

// The design's parameters.
pub(crate) fn put_design(out: &mut [u8], at: usize, parameters: Parameters) -> usize
    ensures { Wrote out.old at (design_line parameters) out.new result }
{
    let word_end = put_text(out, at, b"design");
    let v_end = put_number(out, word_end, parameters.v);
    let b_end = put_number(out, v_end, parameters.b);
    let r_end = put_number(out, b_end, parameters.r);
    let p_end = put_number(out, r_end, parameters.p);
    let l1_end = put_number(out, p_end, parameters.l1);
    let l2_end = put_number(out, l1_end, parameters.l2);
    put_byte(out, l2_end, 10)
}

// A refusal: its number and its place.
pub fn put_refused(out: &mut [u8], at: usize, number: u8, place: usize) -> usize
    ensures { Wrote out.old at (refused_line number place) out.new result }
{
    let word_end = put_text(out, at, b"refused");
    let number_end = put_number(out, word_end, number as u64);
    let place_end = put_number(out, number_end, place as u64);
    put_byte(out, place_end, 10)
}
