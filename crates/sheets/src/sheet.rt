// A sheet's text, line after line.
ghost use Rattle.std.specs.Prelude.{◌≡◌, ◌≤◌, length};
ghost use Rattle.meaning.specs.SheetText.{added, put, with_line, nothing_read, read_to, claims_to, ended, laid, lines_of, sheet_of, claims_of};

use crate::lines::{put_claim, unread, with_line};
use crate::pieces::count;
use records::SheetRead;

// What is read of a sheet's text, and its claims at the front of `claims`, as far as that goes.
pub fn read_sheet(bytes: &[u8], claims: &mut [i64]) -> SheetRead
    ensures value { result ≡ sheet_of bytes.now }
    ensures claims_after { claims.new ≡ laid (claims_of bytes.now) claims.old }
{
    if 65536 < bytes.len() {
        return nothing_read(Some(1));
    }
    let lines = count(bytes, b'\n') + 1;
    let read = read_lines(bytes, claims);
    ended(lines, read)
}

// Nothing read, and the line that cannot be, if there is one.
fn nothing_read(line: Option<usize>) -> SheetRead
    ensures { result ≡ nothing_read line }
{
    SheetRead {
        line,
        count: 0,
        spread: None,
    }
}

// The lines of a text, one after the other.
fn read_lines(bytes: &[u8], claims: &mut [i64]) -> SheetRead
    requires { length bytes.now ≤ 65536 }
    ensures value { result ≡ read_to (lines_of bytes.now) bytes.now }
    ensures claims_after { claims.new ≡ laid (claims_to (lines_of bytes.now) bytes.now) claims.old }
{
    let mut read = nothing_read(None);
    for (k, line) in bytes.split(|byte| *byte == b'\n').enumerate() {
        read = read_line(k + 1, line, read, claims);
    }
    read
}

// One line, and its claim put behind those before it.
fn read_line(k: usize, line: &[u8], read: SheetRead, claims: &mut [i64]) -> SheetRead
    requires { read.count ≤ 65536 }
    ensures value { result ≡ with_line k line.now read }
    ensures claims_after { claims.new ≡ put (added line.now read) read.count claims.old }
{
    put_claim(line, read, claims);
    with_line(k, line, read)
}

// A text without a spread line cannot be read at its last line.
#[tactic(auto, unfolding(meaning::specs::SheetText::ended))]
fn ended(lines: usize, read: SheetRead) -> SheetRead
    ensures { result ≡ ended lines read }
{
    if read.line.is_some() || read.spread.is_some() {
        return read;
    }
    unread(lines, read)
}
