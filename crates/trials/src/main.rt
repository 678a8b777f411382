// Prints, for each file that an argument names, its name and its listing. What it prints is compared with an independent count of the same files.
#![tactic(auto)]

mod system;

use crate::system::{ARGUMENT_ROOM, open, read_full, say_unopened, write_output};
use std::env::FillError;
use std::rt::Env;

// One file for each argument after the program's name. A name that is longer than every path counts as an empty one.
fn main(rt: HostRuntime) {
    let mut name = [0u8; ARGUMENT_ROOM];
    for i in 1..usize::MAX {
        let length = match rt.arg(i, &mut name) {
            Ok(length) => length,
            Err(FillError::TooLong) => 0,
            Err(FillError::NotPresent) => break,
        };
        print_file(&rt, &name[..length]);
    }
}

// Reads the file of a name, up to 8,192 bytes, and prints both. 64 KiB are room for every listing.
fn print_file(rt: &HostRuntime, name: &[u8]) {
    let mut file = match open(rt, name) {
        Ok(file) => file,
        Err(error) => return say_unopened(rt, name, error),
    };
    let mut bytes = [0u8; 8192];
    let length = read_full(&mut file, &mut bytes);
    write_output(rt, b"== ");
    write_output(rt, name);
    write_output(rt, b"\n");
    let mut text = [0u8; 65536];
    print_listing(rt, &bytes[..length], &mut text);
}

// The listing of a file, which is laid into `text` first.
fn print_listing(rt: &HostRuntime, bytes: &[u8], text: &mut [u8]) {
    let listed = listing::listing(bytes, text);
    write_output(rt, &text[..listed.length]);
}
