// What is put into lent bytes from a place on: bytes, words, numbers in digits, numbers as their bytes, names, what columns are made of. Each
// function answers the place after what it put; what is past the end is dropped, and counted.
#![tactic(auto)]

mod columns;
mod decimals;
mod names;
mod octets;

ghost use Rattle.std.specs.Prelude.{[], ◌∷◌};
ghost use Rattle.algebra.specs.Buffers.{Wrote};

pub use columns::{put_counts, put_decimals, put_spaces};
pub use decimals::{put_digits, put_number, put_signed, put_wide};
pub use names::{put_escaped, put_hex, put_name};
pub use octets::{bits, put_bytes};

// One byte. The last number of a usize stays: no place follows it.
pub fn put_byte(out: &mut [u8], at: usize, byte: u8) -> usize
    ensures { Wrote out.old at (byte ∷ []) out.new result }
{
    if at < out.len() {
        out[at] = byte;
    }
    at.saturating_add(1)
}

// The bytes of a text, one after the other.
pub fn put_text(out: &mut [u8], at: usize, text: &[u8]) -> usize
    ensures { Wrote out.old at text.now out.new result }
{
    let mut place = at;
    for byte in text {
        place = put_byte(out, place, *byte);
    }
    place
}
