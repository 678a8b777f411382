// What stands in the fields of a job file, each read from where it stands, for any bytes.
ghost use Rattle.std.specs.Prelude.{◌≡◌};
ghost use Rattle.meaning.specs.File.{head_of, set_of, sum_of};
ghost use Rattle.fields.specs.Contents.{held_in};

use crate::places::{BLOCKS_AT, TO_SET, TO_SUM, block_count, readings_at, restraint_at};
use numbers::{byte, eight_bytes, signed_64};
use records::{Head, Held};

// Its sizes, where its blocks, its restraint and its readings start and how many readings there are, its restraint set and accepted sum.
pub fn held(bytes: &[u8]) -> Held
    ensures { result ≡ held_in bytes.now }
{
    let head = head_of(bytes);
    Held {
        head,
        blocks_at: BLOCKS_AT,
        restraint_at: restraint_at(bytes),
        readings_at: readings_at(bytes),
        count: block_count(bytes),
        set: set_of(bytes),
        sum: sum_of(bytes),
    }
}

// The four sizes, in the bytes of the first field's body.
pub(crate) fn head_of(bytes: &[u8]) -> Head
    ensures { result ≡ head_of bytes.now }
{
    Head {
        n: byte(bytes, 3) as usize,
        flag: byte(bytes, 4) as usize,
        p: byte(bytes, 5) as usize,
        m: byte(bytes, 6) as usize,
    }
}

// The restraint set.
fn set_of(bytes: &[u8]) -> u64
    ensures { result ≡ set_of bytes.now }
{
    eight_bytes(bytes, restraint_at(bytes) + TO_SET)
}

// Its accepted sum.
fn sum_of(bytes: &[u8]) -> i64
    ensures { result ≡ sum_of bytes.now }
{
    signed_64(bytes, restraint_at(bytes) + TO_SUM)
}
