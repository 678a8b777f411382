// Signed numbers in bytes, the highest byte first, for any slice and any place: what stands past the end reads as 0.
ghost use Rattle.std.specs.Prelude.{◌≡◌};
ghost use Rattle.meaning.specs.File.{big, twos};

use crate::unsigned::{eight_bytes, four_bytes};

// The signed number of four bytes.
pub(crate) fn signed_32(bytes: &[u8], place: usize) -> i32
    ensures { result ≡ twos 32 (big bytes.now place 4) }
{
    four_bytes(bytes, place).cast_signed()
}

// The signed number of eight bytes.
pub fn signed_64(bytes: &[u8], place: usize) -> i64
    ensures { result ≡ twos 64 (big bytes.now place 8) }
{
    eight_bytes(bytes, place).cast_signed()
}
