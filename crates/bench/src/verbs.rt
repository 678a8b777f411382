// The verbs: their names, what each takes and what it does, each in one place; and the verbs `help` and `version`, which print it.
use crate::failures::Failure;
use crate::system::put_line;
use std::alloc::{AllocError, Global};
use std::fmt::Write;

// What a first word names.
#[derive(Clone, Copy, PartialEq, Eq)]
pub enum Verb {
    List,
    Certificate,
    Job,
    Card,
    Check,
    Practice,
    Pool,
    Help,
    Version,
}

// All of them, in the order of their list.
const VERBS: [Verb; 9] = [
    Verb::List,
    Verb::Certificate,
    Verb::Job,
    Verb::Card,
    Verb::Check,
    Verb::Practice,
    Verb::Pool,
    Verb::Help,
    Verb::Version,
];

impl Verb {
    // The verb of a name.
    pub(crate) fn named(name: &[u8]) -> Option<Verb> {
        match name {
            b"list" => Some(Verb::List),
            b"certificate" => Some(Verb::Certificate),
            b"job" => Some(Verb::Job),
            b"card" => Some(Verb::Card),
            b"check" => Some(Verb::Check),
            b"practice" => Some(Verb::Practice),
            b"pool" => Some(Verb::Pool),
            b"help" => Some(Verb::Help),
            b"version" => Some(Verb::Version),
            _ => None,
        }
    }

    // What it takes.
    pub(crate) fn takes(self) -> &'static str {
        match self {
            Verb::List => "bench list FILE",
            Verb::Certificate => "bench certificate FILE",
            Verb::Job => "bench job CARD",
            Verb::Card => "bench card FILE",
            Verb::Check => "bench check FILE SHEET",
            Verb::Practice => "bench practice FILE START WIDTH VALUE..",
            Verb::Pool => "bench pool FILE..",
            Verb::Help => "bench help [VERB]",
            Verb::Version => "bench version",
        }
    }

    // What it does.
    fn does(self) -> &'static str {
        match self {
            Verb::List => "the listing of a job; a refusal is said in words too",
            Verb::Certificate => {
                "the certificate of a job: each weight with its value and its standard uncertainty in counts, and the spread"
            }
            Verb::Job => "the job file of a card, on standard output",
            Verb::Card => "the card of a job: the text that a person reads and types",
            Verb::Check =>
                "whether another laboratory's sheet agrees with its job, or the first difference",
            Verb::Practice => {
                "a practice job on standard output: the design and the standards of FILE, readings made from true values"
            }
            Verb::Pool =>
                "one spread for up to 64 jobs with the same number of objects and the same beta",
            Verb::Help => "this list, or what one verb takes and does",
            Verb::Version => "the version",
        }
    }

    // What is to be known besides.
    fn more(self) -> Option<&'static str> {
        match self {
            Verb::List | Verb::Card => Some(
                "FILE is a job of either edition. Ends with 1 where it is refused.",
            ),
            Verb::Certificate => Some(
                "FILE is a job of either edition; in the second the weights have names. Ends with 1 where it is refused.",
            ),
            Verb::Job => Some(
                "CARD is a text: residues N or field N; fixed yes or no; initial LEFT | RIGHT for each block; restraint STANDARDS = SUM; readings; names. \
                 # starts a comment.\nEnds with 1 where the job is refused, and with 2 where the card cannot be read; either is told by its line and column.",
            ),
            Verb::Check => Some(
                "FILE is a job of either edition, SHEET a text with the value and spread lines of a listing. \
                 Ends with 1 where they differ or the job is refused.",
            ),
            Verb::Practice => Some(
                "START is 0 to 4294967295, WIDTH 0 to 8 bits of noise, and there is one VALUE for each object, whole counts from -3000 to 3000.",
            ),
            Verb::Pool => Some(
                "Each FILE is a job of the first edition. A line for each, job NAME v beta Q f k, and pooled Q f k.",
            ),
            Verb::Help | Verb::Version => None,
        }
    }
}

// The list of verbs, before them what the program does with none: what each takes, and below it what it does.
pub(crate) fn verb_list(alloc: Global) -> Result<String, AllocError> {
    let mut list = String::from_str(
        alloc,
        "  bench [FILE]\n      the listing of a job of the first edition, or of standard input",
    )?;
    for verb in VERBS {
        let takes = verb.takes();
        let does = verb.does();
        write!(list, "\n  {takes}\n      {does}")?;
    }
    Ok(list)
}

// The verb `help`: the list, or what one verb takes and does.
pub(crate) fn help<'a>(rt: &HostRuntime, rest: &'a [Vec<u8>]) -> Result<(), Failure<'a>> {
    match rest {
        [] => {
            let verbs = verb_list(rt.alloc())?;
            put_line(
                rt,
                format_args!(
                    "The mass bench: values, uncertainties and certificates of weights by a balanced weighing design.\n{verbs}\n\
                     A file - is standard input. It ends with 1 for a refusal or a difference, and with 2 where it cannot be done."
                ),
            );
            Ok(())
        }
        [name] => {
            let Some(verb) = Verb::named(name) else {
                return Err(Failure::NoVerb(name));
            };
            print_verb(rt, verb);
            Ok(())
        }
        _ => Err(Failure::Misused(Verb::Help)),
    }
}

// One verb on standard output.
fn print_verb(rt: &HostRuntime, verb: Verb) {
    let takes = verb.takes();
    let does = verb.does();
    match verb.more() {
        Some(more) => put_line(rt, format_args!("{takes}\n{does}\n{more}")),
        None => put_line(rt, format_args!("{takes}\n{does}")),
    }
}

// The verb `version`: that of the crate and of the module that stand beside the program.
pub(crate) fn version<'a>(rt: &HostRuntime, rest: &'a [Vec<u8>]) -> Result<(), Failure<'a>> {
    if !rest.is_empty() {
        return Err(Failure::Misused(Verb::Version));
    }
    put_line(rt, "bench 0.1.0");
    Ok(())
}
