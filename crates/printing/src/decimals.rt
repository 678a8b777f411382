// Numbers in decimal digits put into lent bytes from a place on, each but the first after a space. Each function answers the place after its text; what is past the
// end is dropped, and counted.
ghost use Rattle.algebra.specs.Buffers.{Wrote};
ghost use Rattle.meaning.specs.Text.{digits, spaced, wide_text, signed_text};
ghost use Rattle.meaning.specs.Wide.{value};

use crate::put_byte;
use arithmetic::{at_most, divide, size};
use records::Wide;

// n in decimal digits, the highest first: put by a call on the smaller number, since the library's own decimals need a buffer, and the length is not known.
#[tactic(auto, using(crate::proofs::decimals::Digits::put_one_digit, crate::proofs::decimals::Digits::put_more_digits))]
pub fn put_digits(out: &mut [u8], at: usize, n: u64) -> usize
    ensures { Wrote out.old at (digits 20 n) out.new result }
{
    if n < 10 {
        put_byte(out, at, b'0' + n as u8)
    } else {
        let next = put_digits(out, at, n / 10);
        put_byte(out, next, b'0' + (n % 10) as u8)
    }
}

// A space and n.
pub fn put_number(out: &mut [u8], at: usize, n: u64) -> usize
    ensures { Wrote out.old at (spaced n) out.new result }
{
    let next = put_byte(out, at, b' ');
    put_digits(out, next, n)
}

// A space and x, with a minus where it is below 0.
pub fn put_signed(out: &mut [u8], at: usize, x: i64) -> usize
    ensures { Wrote out.old at (signed_text x) out.new result }
{
    let magnitude = size(x);
    if x < 0 {
        let sign = put_byte(out, at, b' ');
        let first = put_byte(out, sign, b'-');
        put_digits(out, first, magnitude)
    } else {
        put_number(out, at, magnitude)
    }
}

// x of two words in decimal digits, the highest first, likewise; its type and its division are others.
fn put_wide_digits(out: &mut [u8], at: usize, x: Wide) -> usize
    ensures { Wrote out.old at (digits 39 (value x)) out.new result }
{
    if at_most(x, Wide { high: 0, low: 9 }) {
        put_byte(out, at, b'0' + x.low as u8)
    } else {
        let tenth = divide(x, 10);
        let next = put_wide_digits(out, at, tenth.quotient);
        put_byte(out, next, b'0' + tenth.rest as u8)
    }
}

// A space and x of two words.
pub fn put_wide(out: &mut [u8], at: usize, x: Wide) -> usize
    ensures { Wrote out.old at (wide_text x) out.new result }
{
    let first = put_byte(out, at, b' ');
    put_wide_digits(out, first, x)
}
