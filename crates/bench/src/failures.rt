// Why a verb cannot be done, and what is said of it on standard error.
use crate::system::{say_line, say_of, words_of};
use crate::verbs::{Verb, verb_list};
use std::alloc::{AllocError, AllocFailed};
use std::io;

// Of a word it is the word that the program was given, which need not be text.
#[derive(Drop)]
pub enum Failure<'a> {
    Misused(Verb),
    NoVerb(&'a [u8]),
    Unopened(&'a [u8], io::Error),
    NoNumber(&'a [u8]),
    LongCard,
    LongSheet,
    UnreadCard(Unread<'a>),
    UnreadSheet(usize),
    NoMemory,
}

// A card that cannot be read: its name, where, what was expected there, and whether the card ends there.
#[derive(Clone, Copy)]
pub struct Unread<'a> {
    pub name: &'a [u8],
    pub line: usize,
    pub column: usize,
    pub wanted: &'static str,
    pub at_end: bool,
}

impl<'a> From<AllocError> for Failure<'a> {
    fn from(_error: AllocError) -> Failure<'a> {
        Failure::NoMemory
    }
}

impl<'a, T: Drop> From<AllocFailed<T>> for Failure<'a> {
    fn from(_error: AllocFailed<T>) -> Failure<'a> {
        Failure::NoMemory
    }
}

// Says it. To make the words takes memory too.
pub(crate) fn say_failure(rt: &HostRuntime, failure: Failure<'_>) -> Result<(), AllocError> {
    match failure {
        Failure::Misused(verb) => {
            let takes = verb.takes();
            say_line(
                rt,
                format_args!("bench: too few words, or too many; it takes: {takes}"),
            );
        }
        Failure::NoVerb(word) => {
            let verbs = verb_list(rt.alloc())?;
            say_of(
                rt,
                "bench: there is no verb ",
                word,
                format_args!("; there are:\n{verbs}"),
            );
        }
        Failure::Unopened(name, error) => {
            let error = format!(in rt.alloc(); "{error}")?;
            let words = words_of(&error);
            say_of(rt, "bench: ", name, format_args!(": {words}"));
        }
        Failure::NoNumber(word) => say_of(rt, "bench: ", word, ": this is not a number"),
        Failure::LongCard => say_line(rt, "bench: the card has more than 65,536 bytes"),
        Failure::LongSheet => say_line(rt, "bench: the sheet has more than 65,536 bytes"),
        Failure::UnreadCard(unread) => {
            let Unread {
                name,
                line,
                column,
                wanted,
                at_end,
            } = unread;
            let end = if at_end {
                ", but the card ends here"
            } else {
                ""
            };
            say_of(
                rt,
                "bench: ",
                name,
                format_args!(": line {line}, column {column}: expected {wanted}{end}"),
            );
        }
        Failure::UnreadSheet(line) => {
            say_line(
                rt,
                format_args!("bench: the sheet cannot be read at line {line}"),
            );
        }
        Failure::NoMemory => return Err(AllocError),
    }
    Ok(())
}
