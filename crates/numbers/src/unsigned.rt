// Numbers of one, two, four and eight bytes, high byte first, for any slice and any place: what stands past the end reads as 0.
// A place within the bytes leaves room to step on, so that no place wraps.
ghost use Rattle.std.specs.Prelude.{◌≡◌, get_or};
ghost use Rattle.meaning.specs.File.{big};

// The byte at a place.
pub fn byte(bytes: &[u8], place: usize) -> u8
    ensures { result ≡ get_or bytes.now place 0 }
{
    bytes.get(place).copied().unwrap_or(0)
}

// The three functions below stay apart: each has a type and a promise of its own, and is made of two of the smaller. Past the end bytes read as 0, so
// that there is no slice of them to take.

// The number of two bytes.
pub fn two_bytes(bytes: &[u8], place: usize) -> u16
    ensures { result ≡ big bytes.now place 2 }
{
    if place >= bytes.len() {
        return 0;
    }
    u16::from_be_bytes([byte(bytes, place), byte(bytes, place + 1)])
}

// The number of four bytes.
pub(crate) fn four_bytes(bytes: &[u8], place: usize) -> u32
    ensures { result ≡ big bytes.now place 4 }
{
    if place >= bytes.len() {
        return 0;
    }
    let high = two_bytes(bytes, place);
    let low = two_bytes(bytes, place + 2);
    (u32::from(high) << 16) + u32::from(low)
}

// The number of eight bytes.
pub fn eight_bytes(bytes: &[u8], place: usize) -> u64
    ensures { result ≡ big bytes.now place 8 }
{
    if place >= bytes.len() {
        return 0;
    }
    let high = four_bytes(bytes, place);
    let low = four_bytes(bytes, place + 4);
    (u64::from(high) << 32) + u64::from(low)
}
