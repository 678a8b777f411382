// The cells of a certificate's columns: each is put into lent bytes from a place on, spaces fill it up, and the answer is the place after it. What is wider
// than its column stands whole. A run over one byte of its own finds how wide a text is.
ghost use Rattle.std.specs.Prelude.{◌≡◌, ◌+◌, ◌*◌, ◌-◌, ◌≤◌, length, take, drop};
ghost use Rattle.algebra.specs.Buffers.{Wrote};
ghost use Rattle.meaning.specs.Text.{digits};
ghost use Rattle.meaning.specs.Certificate.{at_left, at_right, two_decimals, counts_text, uncertainty_text, spread_text, standard_word, name_from};

use printing::{put_counts, put_decimals, put_digits, put_name, put_spaces, put_text};
use records::{Spread, Uncertainty};

// The number of a weight.
pub(crate) fn put_object(out: &mut [u8], at: usize, object: usize) -> usize
    ensures { Wrote out.old at (at_left 8 (digits 20 object)) out.new result }
{
    let mut one = [0u8; 1];
    let length = put_digits(&mut one, 0, object as u64);
    let end = put_digits(out, at, object as u64);
    put_spaces(out, end, 8_usize.saturating_sub(length))
}

// The name of a weight, where the file has names.
pub(crate) fn put_named(
    out: &mut [u8],
    at: usize,
    bytes: &[u8],
    names: usize,
    object: usize,
) -> usize
    ensures { Wrote out.old at (at_left 33 (name_from bytes.now names object)) out.new result }
{
    let mut one = [0u8; 1];
    let length = put_name_of(&mut one, 0, bytes, names, object);
    let end = put_name_of(out, at, bytes, names, object);
    put_spaces(out, end, 33_usize.saturating_sub(length))
}

// The name by itself.
fn put_name_of(out: &mut [u8], at: usize, bytes: &[u8], names: usize, object: usize) -> usize
    ensures { Wrote out.old at (name_from bytes.now names object) out.new result }
{
    if names == 0 {
        return at;
    }
    let start = name_start(bytes, names, object);
    let end = name_end(bytes, start);
    put_name(out, at, &bytes[start..end])
}

// Where the eight bytes of a name start, or the end of the bytes where that is before.
fn name_start(bytes: &[u8], names: usize, object: usize) -> usize
    ensures { (result ≤ length bytes.now) × (drop result bytes.now ≡ drop (names + 8 * object) bytes.now) }
{
    names
        .saturating_add(object.saturating_mul(8))
        .min(bytes.len())
}

// Where they end.
fn name_end(bytes: &[u8], start: usize) -> usize
    requires { start ≤ length bytes.now }
    ensures { (start ≤ result) × (result ≤ length bytes.now)
        × (take (result - start) (drop start bytes.now) ≡ take 8 (drop start bytes.now)) }
{
    start.saturating_add(8).min(bytes.len())
}

// Whether a weight is a standard.
pub(crate) fn put_standard(out: &mut [u8], at: usize, held: u64) -> usize
    ensures { Wrote out.old at (at_left 10 (standard_word held)) out.new result }
{
    if held == 1 {
        put_text(out, at, b"yes       ")
    } else {
        put_text(out, at, b"no        ")
    }
}

// Hundredths with their sign, in counts.
pub(crate) fn put_value(out: &mut [u8], at: usize, hundredths: i64) -> usize
    ensures { Wrote out.old at (at_right 22 (counts_text hundredths)) out.new result }
{
    let mut one = [0u8; 1];
    let length = put_counts(&mut one, 0, hundredths);
    let start = put_spaces(out, at, 22_usize.saturating_sub(length));
    put_counts(out, start, hundredths)
}

// Hundredths that have no sign, in counts.
fn put_size(out: &mut [u8], at: usize, hundredths: u64) -> usize
    ensures { Wrote out.old at (at_right 22 (two_decimals hundredths)) out.new result }
{
    let mut one = [0u8; 1];
    let length = put_decimals(&mut one, 0, hundredths);
    let start = put_spaces(out, at, 22_usize.saturating_sub(length));
    put_decimals(out, start, hundredths)
}

// A standard uncertainty, or none.
pub(crate) fn put_uncertainty(out: &mut [u8], at: usize, uncertainty: Option<Uncertainty>) -> usize
    ensures { Wrote out.old at (at_right 22 (uncertainty_text uncertainty)) out.new result }
{
    match uncertainty {
        Some(Uncertainty { hundredths, .. }) => put_size(out, at, hundredths),
        None => put_text(out, at, b"                  none"),
    }
}

// A spread, or none.
pub(crate) fn put_spread(
    out: &mut [u8],
    at: usize,
    spread: Option<Spread>,
    hundredths: u64,
) -> usize
    ensures { Wrote out.old at (at_right 22 (spread_text spread hundredths)) out.new result }
{
    match spread {
        Some(_) => put_size(out, at, hundredths),
        None => put_text(out, at, b"                  none"),
    }
}

// A whole number.
pub(crate) fn put_count(out: &mut [u8], at: usize, n: u64) -> usize
    ensures { Wrote out.old at (at_right 22 (digits 20 n)) out.new result }
{
    let mut one = [0u8; 1];
    let length = put_digits(&mut one, 0, n);
    let start = put_spaces(out, at, 22_usize.saturating_sub(length));
    put_digits(out, start, n)
}
