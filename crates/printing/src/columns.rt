// What columns are made of, put into lent bytes from a place on: spaces, and hundredths as numbers with two decimals. Each function answers the place
// after its text; what is past the end is dropped, and counted.
ghost use Rattle.algebra.specs.Buffers.{Wrote};
ghost use Rattle.meaning.specs.Certificate.{spaces, two_decimals, counts_text};

use crate::decimals::put_digits;
use crate::put_byte;
use arithmetic::size;

// So many spaces.
pub fn put_spaces(out: &mut [u8], at: usize, count: usize) -> usize
    ensures { Wrote out.old at (spaces count) out.new result }
{
    let mut place = at;
    for _ in 0..count {
        place = put_byte(out, place, b' ');
    }
    place
}

// n hundredths, with two decimals.
pub fn put_decimals(out: &mut [u8], at: usize, n: u64) -> usize
    ensures { Wrote out.old at (two_decimals n) out.new result }
{
    let whole_end = put_digits(out, at, n / 100);
    let point_end = put_byte(out, whole_end, b'.');
    let tenth_end = put_byte(out, point_end, b'0' + (n / 10 % 10) as u8);
    put_byte(out, tenth_end, b'0' + (n % 10) as u8)
}

// The same of x, with a minus where it is below 0. The sign goes by x and not by its whole counts: -0.05 has none.
pub fn put_counts(out: &mut [u8], at: usize, x: i64) -> usize
    ensures { Wrote out.old at (counts_text x) out.new result }
{
    let magnitude = size(x);
    if x < 0 {
        let sign_end = put_byte(out, at, b'-');
        put_decimals(out, sign_end, magnitude)
    } else {
        put_decimals(out, at, magnitude)
    }
}
