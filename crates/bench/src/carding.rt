// The verb `job CARD`: the job file of a card, on standard output. A card that cannot be read is told by line, column and what was expected there; a job
// that is refused by its number, in words, and by the line and the column of the card.
use crate::failures::{Failure, Unread};
use crate::files::{TEXT_LIMIT, read_text};
use crate::refusals::words;
use crate::system::{put_text, say_of};
use crate::verbs::Verb;
use cards::{column_of, job_of_card, line_of};
use records::Refusal;

// The refusal that is the card's own: it cannot be read.
const UNREAD: u8 = 19;

// Reads the card and writes its file. 16,384 bytes are room for every file.
pub(crate) fn make_job<'a>(rt: &HostRuntime, rest: &'a [Vec<u8>]) -> Result<(), Failure<'a>> {
    let [name] = rest else {
        return Err(Failure::Misused(Verb::Job));
    };
    let card = read_text(rt, name)?;
    if TEXT_LIMIT < card.len() {
        return Err(Failure::LongCard);
    }
    let mut file = vec![in rt.alloc(); 0u8; 16384]?;
    let made = job_of_card(&card, &mut file);
    match made.verdict {
        Ok(()) => {
            file.truncate(made.length);
            put_text(rt, &file);
            Ok(())
        }
        Err(
            Refusal {
                number: UNREAD,
                place,
            },
        ) => Err(Failure::UnreadCard(Unread {
            name,
            line: line_of(&card, place),
            column: column_of(&card, place),
            wanted: wanted(made.wants),
            at_end: card.len() <= place,
        })),
        Err(why) => {
            say_refused_card(rt, name, &card, why);
            Ok(())
        }
    }
}

// A job that is refused: its number, where in the card, and the words.
fn say_refused_card(rt: &HostRuntime, name: &[u8], card: &[u8], why: Refusal) {
    let Refusal { number, place } = why;
    let line = line_of(card, place);
    let column = column_of(card, place);
    let words = words(number);
    say_of(
        rt,
        format_args!("refused {number} at line {line}, column {column} of "),
        name,
        format_args!(": {words}"),
    );
}

// What a word of a card was to be, by its number where cards are defined (crates/meaning/specs/Card.antt).
fn wanted(wants: usize) -> &'static str {
    match wants {
        1 => "residues or field",
        2 => "the number of elements, a whole number up to 255",
        3 => "fixed",
        4 => "yes or no",
        5 => "initial",
        6 => "an object of the left side: a number up to 254, or inf",
        7 => "another object of the left side, or | with blanks around it",
        8 => "an object of the left side: it has as many as that of the first block",
        9 => "|: the left side has as many objects as that of the first block",
        10 => "an object of the right side: it has as many as the left one",
        11 => {
            "initial or restraint; a number here is one object too many on the right, or one too few on the left"
        }
        12 => "a standard: the number of an object, up to 63",
        13 => "another standard, none twice, or = with blanks around it",
        14 => "the accepted sum, a whole number of counts",
        15 => "readings",
        16 => "a reading, a whole number of counts",
        17 => "another reading, a whole number of counts; or names, other, or the end of the card",
        18 => "a name of at most eight bytes: there is one for each object",
        19 => "other, or the end of the card",
        20 => "a tag: two digits in base 16, above 80 and above the tag before it",
        21 => "the bytes of the field, two digits in base 16 for each, or - for none",
        _ => "nothing more: a job file has no room for it",
    }
}
