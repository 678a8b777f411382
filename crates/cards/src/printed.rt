// The card of a job file, put into lent room: the text from which the same job is read.
ghost use Rattle.std.specs.Prelude.{cond, ◌++◌, ◌≡◌, ◌+◌, ◌*◌, ◌≤◌, eqb, length};
ghost use Rattle.algebra.specs.Buffers.{Wrote};
ghost use Rattle.meaning.specs.Design.{objects, blocks, list_length};
ghost use Rattle.meaning.specs.Refusals.{accepted};
ghost use Rattle.meaning.specs.File.{head_of, fields};
ghost use Rattle.meaning.specs.CardText.{card_text, four_text, other_lines, card_text_of, card_text_of2, text_answer, text_after};
ghost use Rattle.laws.specs.Fits.{Fits};
ghost use Rattle.design.specs.Within.{within};
ghost use Rattle.cards.specs.Printed.{names_from, Printable, printed_text};

use crate::lines::{put_blocks, put_fixed, put_kind, put_readings, put_restraint};
use crate::optional::{put_names, put_others};
use design::objects;
use fields::{four_end, held};
use job::{read, read_second};
use listing::put_refused;
use numbers::readings;
use records::{Head, Listed, Refusal, Verdict};

// The place after the edition field, where the four fields of a file of the second edition start.
const START_AT: usize = 4;

// The card of a file of the first edition at the front of `out`, whose other bytes stay, or the line of its refusal. Without room for all of it nothing is
// written.
pub fn card_of(bytes: &[u8], out: &mut [u8]) -> Listed
    ensures value { result ≡ text_answer (card_text_of bytes.now) (length out.old) }
    ensures out_after { out.new ≡ text_after (card_text_of bytes.now) out.old }
{
    let read = read(bytes);
    let verdict = read.verdict;
    render(verdict, bytes, &bytes[..0], 0, 0, out)
}

// The same for a file of the second edition: its names and its other optional fields stand on the card.
pub fn card_of_second(bytes: &[u8], out: &mut [u8]) -> Listed
    ensures value { result ≡ text_answer (card_text_of2 bytes.now) (length out.old) }
    ensures out_after { out.new ≡ text_after (card_text_of2 bytes.now) out.old }
{
    let read = read_second(bytes);
    let names = read.names_at;
    let job = read.job;
    let verdict = job.verdict;
    let head = job.head;
    let end = four_end(bytes);
    let others = others_at(head, names, end);
    let start = START_AT.min(bytes.len());
    let stop = end.min(bytes.len());
    render(verdict, &bytes[start..stop], bytes, names, others, out)
}

// Where the optional fields after the names start: where the four fields end where there are no names.
fn others_at(head: Head, names: usize, end: usize) -> usize
    requires { names ≤ 16387 }
    ensures { result ≡ cond (eqb names 0) end (names + 8 * within head (objects head)) }
{
    if names == 0 {
        return end;
    }
    names + 8 * objects(head)
}

// The text at the front of `out`, whose other bytes stay. A run over one byte of its own finds the length first, so that nothing is written where it
// has no room.
fn render(
    verdict: Verdict,
    four: &[u8],
    file: &[u8],
    names: usize,
    others: usize,
    out: &mut [u8],
) -> Listed
    requires { Printable verdict four.now file.now names }
    ensures value { result ≡ text_answer (printed_text verdict four.now file.now names others) (length out.old) }
    ensures out_after { out.new ≡ text_after (printed_text verdict four.now file.now names others) out.old }
{
    let mut one = [0u8; 1];
    let length = put_printed(&mut one, 0, verdict, four, file, names, others);
    if out.len() < length {
        return Listed {
            verdict: Err(Refusal {
                number: 10,
                place: 0,
            }),
            length: 0,
        };
    }
    put_printed(out, 0, verdict, four, file, names, others);
    Listed {
        verdict: Ok(()),
        length,
    }
}

// The card, or the line of the refusal.
#[tactic(auto, unfolding(crate::specs::Printed::printed_text))]
fn put_printed(
    out: &mut [u8],
    at: usize,
    verdict: Verdict,
    four: &[u8],
    file: &[u8],
    names: usize,
    others: usize,
) -> usize
    requires { Printable verdict four.now file.now names }
    ensures { Wrote out.old at (printed_text verdict four.now file.now names others) out.new result }
{
    match verdict {
        Ok(()) => put_accepted(out, at, four, file, names, others),
        Err(Refusal { number, place }) => put_refused(out, at, number, place),
    }
}

// The card of an accepted file: its four fields, its names, its other fields.
fn put_accepted(
    out: &mut [u8],
    at: usize,
    four: &[u8],
    file: &[u8],
    names: usize,
    others: usize,
) -> usize
    requires { (fields four.now ≡ accepted) × (length file.now ≤ 16384) × (names ≤ 16387) }
    ensures { Wrote out.old at (four_text four.now ++ names_from file.now names (objects (head_of four.now))
        ++ other_lines (length file.now) file.now others) out.new result }
{
    let held = held(four);
    let head = held.head;
    let count = objects(head);
    let four_end = put_four(out, at, four);
    let names_end = put_names(out, four_end, file, names, count);
    put_others(out, names_end, file, others)
}

// The lines of four fields.
fn put_four(out: &mut [u8], at: usize, four: &[u8]) -> usize
    requires { fields four.now ≡ accepted }
    ensures { Wrote out.old at (four_text four.now) out.new result }
{
    let held = held(four);
    let head = held.head;
    let start = held.blocks_at;
    let end = held.restraint_at;
    let count = held.count;
    let mut decoded = [0i32; 1300];
    readings(four, held.readings_at, count, &mut decoded);
    put_job(
        out,
        at,
        head,
        &four[start..end],
        &decoded[..count],
        held.set,
        held.sum,
    )
}

// The lines of a job from its parts.
fn put_job(
    out: &mut [u8],
    at: usize,
    head: Head,
    list: &[u8],
    readings: &[i32],
    set: u64,
    sum: i64,
) -> usize
    requires { (Fits head) × (length list.now ≡ list_length head) × (length readings.now ≡ blocks head) }
    ensures { Wrote out.old at (card_text head list.now readings.now set sum) out.new result }
{
    let kind_end = put_kind(out, at, head);
    let fixed_end = put_fixed(out, kind_end, head);
    let blocks_end = put_blocks(out, fixed_end, head, list);
    let restraint_end = put_restraint(out, blocks_end, objects(head), set, sum);
    put_readings(out, restraint_end, head, readings)
}
