// The fields of a job file put as bytes into lent room from a place on. Each function answers the place after what it put.
ghost use Rattle.std.specs.Prelude.{◌∷◌, ◌++◌};
ghost use Rattle.algebra.specs.Buffers.{Wrote};
ghost use Rattle.meaning.specs.Writing.{bytes_of, restraint_body, readings_body};

use printing::{bits, put_byte, put_bytes};

// The third field: the restraint set, then its accepted sum.
pub fn put_restraint(out: &mut [u8], at: usize, set: u64, sum: i64) -> usize
    ensures { Wrote out.old at (3 ∷ bytes_of 2 16 ++ restraint_body set sum) out.new result }
{
    let body = put_start(out, at, 3, 16);
    let middle = put_bytes(out, body, 8, set);
    put_bytes(out, middle, 8, bits(sum))
}

// The readings, four bytes each.
pub(crate) fn put_readings(out: &mut [u8], at: usize, readings: &[i32]) -> usize
    ensures { Wrote out.old at (readings_body readings.now) out.new result }
{
    let mut place = at;
    for &reading in readings {
        place = put_bytes(out, place, 4, bits(i64::from(reading)));
    }
    place
}

// The start of a field: its tag, and the length of its body.
pub fn put_start(out: &mut [u8], at: usize, tag: u8, length: usize) -> usize
    ensures { Wrote out.old at (tag ∷ bytes_of 2 length) out.new result }
{
    let next = put_byte(out, at, tag);
    put_bytes(out, next, 2, length as u64)
}
