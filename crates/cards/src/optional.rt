// The lines of a card that are printed for the optional fields of a file: its names, and the other fields. Each is put into lent bytes from a place on,
// and the answer is the place after it. What stands past the end of the file is not there.
ghost use Rattle.std.specs.Prelude.{◌∷◌, ◌≡◌, ◌+◌, ◌*◌, ◌≤◌, length, take, drop};
ghost use Rattle.algebra.specs.Buffers.{Wrote};
ghost use Rattle.meaning.specs.Text.{each, name_text};
ghost use Rattle.meaning.specs.CardText.{name_at, body_text, hex_texts, other_line, other_lines};
ghost use Rattle.cards.specs.Printed.{names_from};

use numbers::{byte, two_bytes};
use printing::{put_byte, put_hex, put_name, put_text};

// The name that starts at a place, a space before it.
fn put_name_at(out: &mut [u8], at: usize, file: &[u8], place: usize) -> usize
    requires { place ≤ 32768 }
    ensures { Wrote out.old at (32 ∷ name_text (take 8 (drop place file.now))) out.new result }
{
    let start = place.min(file.len());
    let end = (place + 8).min(file.len());
    let next = put_byte(out, at, 32);
    put_name(out, next, &file[start..end])
}

// The names of so many objects, which start at a place.
fn put_each_name(out: &mut [u8], at: usize, file: &[u8], start: usize, count: usize) -> usize
    requires { (start ≤ 16387) × (count ≤ 50) }
    ensures { Wrote out.old at (each count (λ i. 32 ∷ name_text (name_at file.now start i))) out.new result }
{
    let mut place = at;
    for i in 0..count {
        place = put_name_at(out, place, file, start + 8 * i);
    }
    place
}

// The line of the names, where there are any: a start of 0 says that there are none.
pub(crate) fn put_names(out: &mut [u8], at: usize, file: &[u8], start: usize, count: usize) -> usize
    requires { (start ≤ 16387) × (count ≤ 50) }
    ensures { Wrote out.old at (names_from file.now start count) out.new result }
{
    if start == 0 {
        return at;
    }
    let word_end = put_text(out, at, b"names");
    let names_end = put_each_name(out, word_end, file, start, count);
    put_byte(out, names_end, 10)
}

// Bytes in base 16.
fn put_hex_texts(out: &mut [u8], at: usize, bytes: &[u8]) -> usize
    ensures { Wrote out.old at (hex_texts bytes.now) out.new result }
{
    let mut place = at;
    for byte in bytes {
        place = put_hex(out, place, *byte);
    }
    place
}

// The bytes of a field, - where there are none.
#[tactic(auto, unfolding(meaning::specs::Text::ascii))]
fn put_body(out: &mut [u8], at: usize, body: &[u8]) -> usize
    ensures { Wrote out.old at (body_text body.now) out.new result }
{
    if body.is_empty() {
        put_text(out, at, b"-")
    } else {
        put_hex_texts(out, at, body)
    }
}

// The field at a place: its tag and its bytes.
#[tactic(auto, unfolding(meaning::specs::Text::ascii))]
fn put_other(out: &mut [u8], at: usize, file: &[u8], place: usize) -> usize
    requires { place ≤ 16384 }
    ensures { Wrote out.old at (other_line file.now place) out.new result }
{
    let told = usize::from(two_bytes(file, place + 1));
    let start = (place + 3).min(file.len());
    let end = (place + 3 + told).min(file.len());
    let word_end = put_text(out, at, b"other ");
    let tag_end = put_hex(out, word_end, byte(file, place));
    let space_end = put_byte(out, tag_end, 32);
    let body_end = put_body(out, space_end, &file[start..end]);
    put_byte(out, body_end, 10)
}

// A line for each field from a place on.
pub(crate) fn put_others(out: &mut [u8], at: usize, file: &[u8], start: usize) -> usize
    requires { length file.now ≤ 16384 }
    ensures { Wrote out.old at (other_lines (length file.now) file.now start) out.new result }
{
    // The fields are walked: each tells where the next one starts.
    let mut place = at;
    let mut field = start;
    while field < file.len() {
        place = put_other(out, place, file, field);
        field = field + 3 + usize::from(two_bytes(file, field + 1));
    }
    place
}
