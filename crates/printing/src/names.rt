// A byte in base 16, and names as they are shown, put into lent bytes from a place on. Each function answers the place after its text; what is past the
// end is dropped, and counted.
ghost use Rattle.std.specs.Prelude.{◌≡◌, not, ◌&&◌, ◌≤◌, ◌<◌, eqb, ltb, length, take};
ghost use Rattle.algebra.specs.Buffers.{Wrote};
ghost use Rattle.meaning.specs.Text.{hex_letter, hex_text, escaped_byte, escaped, trimmed, name_text};

use crate::{put_byte, put_text};

// A digit of base 16.
fn hex_letter(digit: u8) -> u8
    requires { digit < 16 }
    ensures { result ≡ hex_letter digit }
{
    if digit < 10 {
        b'0' + digit
    } else {
        b'A' + (digit - 10)
    }
}

// A byte in two digits of base 16.
pub fn put_hex(out: &mut [u8], at: usize, byte: u8) -> usize
    ensures { Wrote out.old at (hex_text byte) out.new result }
{
    let high = hex_letter(byte / 16);
    let low = hex_letter(byte % 16);
    let next = put_byte(out, at, high);
    put_byte(out, next, low)
}

// Whether a byte of a name is shown as itself: from ! to ~ but # and \.
fn is_shown(byte: u8) -> bool
    ensures { result ≡ (ltb 32 byte && (ltb byte 127 && (not (eqb byte 35) && not (eqb byte 92)))) }
{
    byte.is_ascii_graphic() && byte != b'#' && byte != b'\\'
}

// A byte of a name: itself, or in base 16.
fn put_escaped_byte(out: &mut [u8], at: usize, byte: u8) -> usize
    ensures { Wrote out.old at (escaped_byte byte) out.new result }
{
    if is_shown(byte) {
        put_byte(out, at, byte)
    } else {
        let mark = put_text(out, at, b"\\x");
        put_hex(out, mark, byte)
    }
}

// The bytes of a name, one after the other, so that no name breaks a line or a column.
pub fn put_escaped(out: &mut [u8], at: usize, name: &[u8]) -> usize
    ensures { Wrote out.old at (escaped name.now) out.new result }
{
    let mut place = at;
    for byte in name {
        place = put_escaped_byte(out, place, *byte);
    }
    place
}

// How many bytes are left of a name without the spaces that fill it up.
#[tactic(auto, using(crate::proofs::names::Shown::trimmed_on, crate::proofs::names::Shown::trimmed_up_to))]
fn trimmed_length(name: &[u8]) -> usize
    ensures { (result ≤ length name.now) × (take result name.now ≡ trimmed name.now) }
{
    // A search from the end (`rposition`) has no lemma of the library; this loop proves with two.
    let mut kept = 0;
    for (i, byte) in name.iter().enumerate() {
        if *byte != b' ' {
            kept = i + 1;
        }
    }
    kept
}

// A name of a file, without the spaces that fill it up; one of spaces alone shows its first.
pub fn put_name(out: &mut [u8], at: usize, name: &[u8]) -> usize
    ensures { Wrote out.old at (name_text name.now) out.new result }
{
    let kept = trimmed_length(name);
    if kept == 0 {
        put_escaped(out, at, b" ")
    } else {
        put_escaped(out, at, &name[..kept])
    }
}
