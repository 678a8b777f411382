// Refusals in words: a sentence for each number, in one place, and for an unbalanced design two pairs of its objects that do not meet alike.
use crate::files::fields_of;
use crate::pairs::odd_pair;
use crate::system::{put_line, say_line};
use records::Refusal;

// The refusal of an unbalanced design.
const UNBALANCED: u8 = 6;

// A refusal of a job: its line on standard output, and the sentence on standard error.
pub(crate) fn refuse(rt: &HostRuntime, file: &[u8], why: Refusal) {
    say_refused(rt, file, why);
    let Refusal { number, place } = why;
    put_line(rt, format_args!("refused {number} {place}"));
}

// The sentence: number and place, the words, and of an unbalanced design two pairs.
pub(crate) fn say_refused(rt: &HostRuntime, file: &[u8], why: Refusal) {
    let Refusal { number, place } = why;
    let words = words(number);
    let odd = if number == UNBALANCED {
        odd_pair(fields_of(file))
    } else {
        None
    };
    match odd {
        Some(pair) => say_line(
            rt,
            format_args!("refused {number} {place}: {words}: {pair}"),
        ),
        None => say_line(rt, format_args!("refused {number} {place}: {words}")),
    }
}

// The words of a number, 1 to 18.
pub(crate) fn words(number: u8) -> &'static str {
    match number {
        1 => "the file is empty or ends within a field",
        2 => {
            "another field stands where one belongs, so this is no job file; of a card bench job makes one"
        }
        3 => {
            "there are too few or too many readings, objects or true values: a design needs a reading for each weighing"
        }
        4 => {
            "a size is out of range: the elements (3 to 50, or those of a field), the objects a side, the initial blocks (1 to 64) or the blocks (to 1,300)"
        }
        5 => {
            "an object is out of range, is the fixed one where none takes part, or stands twice in its block"
        }
        6 => "the developed design is unbalanced",
        7 => {
            "the restraint has no object, or one that there is not, or its sum is beyond 1,000,000,000,000 counts"
        }
        8 => "a reading is beyond 200,000,000 counts",
        9 => "bytes follow the last field",
        10 => "there is no room for the answer",
        11 => "the restraint has one object: with less than two a bad standard would show nowhere",
        12 => "the edition is not 2",
        13 => "a field stands there that the first edition does not have",
        14 => "the groups are too few, too large or not of one size",
        15 => "the sheet has not one value for each object",
        16 => "a true value, the width or the start number is out of range",
        17 => "the job has another number of objects or another beta than the first",
        _ => "there are no jobs to pool, or more than 64",
    }
}
