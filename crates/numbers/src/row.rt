// The readings of a file, decoded into lent room, for any slice and any place: what stands past the end reads as 0.
ghost use Rattle.std.specs.Prelude.{◌≡◌, ◌+◌, ◌*◌};
ghost use Rattle.algebra.specs.Buffers.{over};
ghost use Rattle.meaning.specs.File.{big, twos};

use crate::signed::signed_32;

// Signed number i of those that stand one after another from a place on.
fn entry(bytes: &[u8], place: usize, i: usize) -> i32
    ensures { result ≡ twos 32 (big bytes.now (place + 4 * i) 4) }
{
    if place >= bytes.len() || i > bytes.len() / 4 {
        return 0;
    }
    signed_32(bytes, place + 4 * i)
}

// Lays the first `count` of them into lent room, as far as it goes; later entries stay.
pub fn readings(bytes: &[u8], place: usize, count: usize, out: &mut [i32])
    ensures { out.new ≡ over count (λ k. twos 32 (big bytes.now (place + 4 * k) 4)) out.old }
{
    let kept = count.min(out.len());
    for (i, reading) in out[..kept].iter_mut().enumerate() {
        *reading = entry(bytes, place, i);
    }
}
