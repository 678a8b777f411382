// The bench. With no argument it reads a job file from standard input, up to 8,192 bytes, and prints its listing; a read that fails counts as the end. A
// listing that cannot be written whole is said to be so on standard error: a program sets no exit status of its own. With arguments, the first names a
// verb.
#![tactic(auto)]

mod carding;
mod check;
mod failures;
mod figures;
mod files;
mod numerals;
mod pairs;
mod pooling;
mod practising;
mod refusals;
mod system;
mod texts;
mod verbs;

ghost use Rattle.std.specs.Prelude.{◌≡◌, ◌≤◌, length, take};
ghost use Rattle.meaning.specs.Text.{text_of};

use crate::failures::{Failure, say_failure};
use crate::system::{arguments, has_words, read_full, say_line, write_output};
use crate::verbs::Verb;
use std::alloc::AllocError;

fn main(rt: HostRuntime) {
    if !has_words(&rt) {
        list(&rt);
    } else if run(&rt).is_err() {
        say_line(&rt, "bench: there is no memory left");
    }
}

// Does what the arguments ask for, and says why where that cannot be done.
fn run(rt: &HostRuntime) -> Result<(), AllocError> {
    let words = arguments(rt)?;
    match run_words(rt, &words) {
        Ok(()) => Ok(()),
        Err(failure) => say_failure(rt, failure),
    }
}

// What the first word after the program's name asks for.
fn run_words<'a>(rt: &HostRuntime, words: &'a [Vec<u8>]) -> Result<(), Failure<'a>> {
    let [_, name, rest @ ..] = words else {
        return Ok(list(rt));
    };
    match Verb::named(name) {
        Some(Verb::Job) => carding::make_job(rt, rest),
        Some(Verb::Check) => check::check(rt, rest),
        Some(Verb::Practice) => practising::practise(rt, rest),
        Some(Verb::Pool) => pooling::pool(rt, rest),
        Some(Verb::Help) => verbs::help(rt, rest),
        Some(Verb::Version) => verbs::version(rt, rest),
        Some(verb) => texts::print_text(rt, verb, rest),
        None => Err(Failure::NoVerb(name)),
    }
}

// The listing of what stands on standard input. It asks for no memory, so that it fails for none.
fn list(rt: &HostRuntime) {
    let mut input = [0u8; 8192];
    let n = read_full(&mut rt.stdin(), &mut input);
    let mut text = [0u8; 65536];
    let length = put_text(&input[..n], &mut text);
    if !write_output(rt, &text[..length]) {
        say_line(rt, "bench: the listing could not be written");
    }
}

// The text for a file at the front of `text`, and its length: what is printed. 64 KiB are room for every text.
fn put_text(bytes: &[u8], text: &mut [u8]) -> usize
    requires { 65536 ≤ length text.old }
    ensures text_after { take result text.new ≡ text_of bytes.now }
    ensures upper_bound { result ≤ length text.new }
    ensures value { result ≡ length (take result text.new) }
{
    let listed = listing::listing(bytes, text);
    listed.length
}
