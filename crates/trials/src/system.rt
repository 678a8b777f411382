// What the program has of the system: its arguments, the files that they name, standard output and standard error.
// The bench has a file like this of its own: a public function of a library promises what it answers, and nothing can be promised of the system.
ghost use Rattle.std.specs.Prelude.{◌≡◌, ◌≤◌, length, take};

use std::fs::File;
use std::io;
use std::io::{Cursor, ErrorKind, Read, Write};
use std::str::from_utf8;

// As many bytes as the longest path has, with the one that ends it.
pub const ARGUMENT_ROOM: usize = 4096;

// Opens the file of a name for reading. A name is the bytes of UTF-8.
pub(crate) fn open(rt: &HostRuntime, name: &[u8]) -> io::Result<File> {
    match from_utf8(name) {
        Ok(path) => File::open(rt, path),
        Err(_) => Err(io::Error::new(ErrorKind::InvalidFilename, "the name is not UTF-8")),
    }
}

// Reads until the room is full, the input ends or a read fails, and answers how many bytes now stand at the front of the room.
pub(crate) fn read_full<R: Read>(from: &mut R, room: &mut [u8]) -> usize
    ensures upper_bound { result ≤ length room.new }
    ensures value { result ≡ length (take result room.new) }
{
    let mut done = 0;
    while done < room.len() {
        match from.read(&mut room[done..]) {
            Ok(0) => break,
            Ok(n) => done += n,
            Err(_) => break,
        }
    }
    done
}

// Writes all of these bytes on standard output; what cannot be written is lost.
pub(crate) fn write_output(rt: &HostRuntime, bytes: &[u8]) {
    let _ = rt.stdout().write_all(bytes);
}

// A line on standard error: a name, and why its file could not be opened, in the words of the system.
pub(crate) fn say_unopened(rt: &HostRuntime, name: &[u8], error: io::Error) {
    let mut text = [0u8; 320];
    let length = put_error(&mut text, error);
    for piece in [name, b": ", words_of(&text[..length]), b"\n"] {
        let _ = rt.stderr().write_all(piece);
    }
}

// An error at the front of `text`, as far as there is room, and its length.
fn put_error(text: &mut [u8], error: io::Error) -> usize
    ensures { result ≤ length text.new }
{
    let room = text.len();
    let mut cursor = Cursor::new(text);
    let _ = write!(cursor, "{error}");
    let end = cursor.position() as usize;
    if end < room { end } else { room }
}

// The words of an error of the system, without its number, which the library puts behind them.
fn words_of(said: &[u8]) -> &[u8] {
    match from_utf8(said) {
        Ok(text) => match text.rsplit_once(" (os error ") {
            Some((words, _)) => words.as_bytes(),
            None => said,
        },
        Err(_) => said,
    }
}
