// What the program has of the system: its arguments, the files that they name, standard input, standard output and standard error.
// The trials have a file like this of their own: a public function of a library promises what it answers, and nothing can be promised of the system.
ghost use Rattle.std.specs.Prelude.{◌≡◌, ◌≤◌, length, take};

use std::alloc::{AllocError, Global};
use std::env::FillError;
use std::fmt::Display;
use std::fs::File;
use std::io;
use std::io::{Cursor, ErrorKind, Read, Write};
use std::rt::Env;
use std::str::from_utf8;

// As many bytes as the longest path has, with the one that ends it.
const ARGUMENT_ROOM: usize = 4096;

// A line has at most so many bytes: four letters for each byte of an argument, and all the words and numbers about it.
const LINE_ROOM: usize = 16640;

// Whether the program was given a word besides its name.
pub(crate) fn has_words(rt: &HostRuntime) -> bool {
    let mut nothing = [0u8; 1];
    !matches!(rt.arg(1, &mut nothing), Err(FillError::NotPresent))
}

// The arguments, the program's name first. One that is longer than every path counts as an empty one.
pub(crate) fn arguments(rt: &HostRuntime) -> Result<Vec<Vec<u8>>, AllocError> {
    let mut words = Vec::new(rt.alloc());
    let mut room = [0u8; ARGUMENT_ROOM];
    for i in 0..usize::MAX {
        let length = match rt.arg(i, &mut room) {
            Ok(length) => length,
            Err(FillError::TooLong) => 0,
            Err(FillError::NotPresent) => break,
        };
        words.push(Vec::from_slice(rt.alloc(), &room[..length])?)?;
    }
    Ok(words)
}

// Opens the file of a name for reading. A name is the bytes of UTF-8.
pub(crate) fn open(rt: &HostRuntime, name: &[u8]) -> io::Result<File> {
    match from_utf8(name) {
        Ok(path) => File::open(rt, path),
        Err(_) => Err(io::Error::new(ErrorKind::InvalidFilename, "the name is not UTF-8")),
    }
}

// Reads until the room is full, the input ends or a read fails, and answers how many bytes now stand at the front of the room.
pub(crate) fn read_full<R: Read>(from: &mut R, room: &mut [u8]) -> usize
    ensures upper_bound { result ≤ length room.new }
    ensures value { result ≡ length (take result room.new) }
{
    let mut done = 0;
    while done < room.len() {
        match from.read(&mut room[done..]) {
            Ok(0) => break,
            Ok(n) => done += n,
            Err(_) => break,
        }
    }
    done
}

// Reads so many bytes, or fewer where the input ends before.
pub(crate) fn read_at_most<R: Read + Drop>(
    alloc: Global,
    mut from: R,
    most: usize,
) -> Result<Vec<u8>, AllocError> {
    let mut bytes = vec![in alloc; 0u8; most]?;
    let length = read_full(&mut from, &mut bytes);
    bytes.truncate(length);
    Ok(bytes)
}

// Writes all of these bytes on standard output, and whether that could be done.
pub(crate) fn write_output(rt: &HostRuntime, bytes: &[u8]) -> bool {
    rt.stdout().write_all(bytes).is_ok()
}

// A line on standard output, in one write: the library writes a long one in pieces, between which others may write too.
pub(crate) fn put_line<L: Display + Drop>(rt: &HostRuntime, line: L) {
    let mut room = [0u8; LINE_ROOM];
    let length = lay_line(&mut room, line, b"", "");
    put_text(rt, &room[..length]);
}

// A text on standard output, or a file.
pub(crate) fn put_text(rt: &HostRuntime, text: &[u8]) {
    if !write_output(rt, text) {
        say_unwritten(rt);
    }
}

fn say_unwritten(rt: &HostRuntime) {
    say_line(rt, "bench: the answer could not be written");
}

// A line on standard error, in one write; what cannot be written there is lost.
pub(crate) fn say_line<L: Display + Drop>(rt: &HostRuntime, line: L) {
    say_of(rt, line, b"", "");
}

// A line on standard error with a word in it that need not be text.
pub(crate) fn say_of<B: Display + Drop, E: Display + Drop>(
    rt: &HostRuntime,
    before: B,
    word: &[u8],
    behind: E,
) {
    let mut room = [0u8; LINE_ROOM];
    let length = lay_line(&mut room, before, word, behind);
    let _ = rt.stderr().write_all(&room[..length]);
}

// Lays a line into room, as far as there is some, and answers how many bytes now stand at its front.
fn lay_line<B: Display + Drop, E: Display + Drop>(
    room: &mut [u8],
    before: B,
    word: &[u8],
    behind: E,
) -> usize
    ensures { result ≤ length room.new }
{
    let most = room.len();
    let mut line = Cursor::new(room);
    let _ = write!(line, "{before}");
    let _ = line.write_all(word);
    let _ = write!(line, "{behind}\n");
    let end = line.position() as usize;
    if end < most { end } else { most }
}

// The words of an error of the system, without its number, which the library puts behind them.
pub(crate) fn words_of(error: &str) -> &str {
    match error.rsplit_once(" (os error ") {
        Some((words, _)) => words,
        None => error,
    }
}
