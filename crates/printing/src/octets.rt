// A number as its bytes, the highest first, put into lent room from a place on, and the bits of a signed number.
ghost use Rattle.std.specs.Prelude.{◌≡◌};
ghost use Rattle.algebra.specs.Buffers.{Wrote};
ghost use Rattle.meaning.specs.Writing.{bytes_of, wrapped};

use crate::put_byte;

// A number of so many bytes, the highest first; what is above them is lost.
pub fn put_bytes(out: &mut [u8], at: usize, count: usize, x: u64) -> usize
    ensures { Wrote out.old at (bytes_of count x) out.new result }
{
    // The highest byte is put by a call on the smaller number, so no loop counts places from the end.
    if count == 0 {
        return at;
    }
    let next = put_bytes(out, at, count - 1, x / 256);
    put_byte(out, next, (x % 256) as u8)
}

// The 64 bits of a signed number.
pub fn bits(x: i64) -> u64
    ensures { result ≡ wrapped 64 x }
{
    x.cast_unsigned()
}
