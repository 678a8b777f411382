// The verbs that print a text of a job of either edition: `list FILE` its listing, `certificate FILE` its certificate, `card FILE` its card. For a
// refused job each prints the line of the refusal, and says its sentence.
use crate::failures::Failure;
use crate::figures::read_verdict;
use crate::files::{Edition, edition_of, read_job};
use crate::refusals::say_refused;
use crate::system::put_text;
use crate::verbs::Verb;
use records::Listed;

// Reads the file and prints the text of a verb, and says the sentence where the job is refused. 64 KiB are room for every text.
pub(crate) fn print_text<'a>(
    rt: &HostRuntime,
    verb: Verb,
    rest: &'a [Vec<u8>],
) -> Result<(), Failure<'a>> {
    let [name] = rest else {
        return Err(Failure::Misused(verb));
    };
    let file = read_job(rt, name)?;
    let mut text = vec![in rt.alloc(); 0u8; 65536]?;
    let listed = lay_text(verb, &file, &mut text);
    text.truncate(listed.length);
    put_text(rt, &text);
    if let Err(why) = read_verdict(&file) {
        say_refused(rt, &file, why);
    }
    Ok(())
}

// The text of a verb, by the call for the edition of the job.
fn lay_text(verb: Verb, file: &[u8], text: &mut [u8]) -> Listed {
    match (verb, edition_of(file)) {
        (Verb::Certificate, Edition::First) => listing::certificate(file, text),
        (Verb::Certificate, Edition::Second) => listing::certificate_second(file, text),
        (Verb::Card, Edition::First) => cards::card_of(file, text),
        (Verb::Card, Edition::Second) => cards::card_of_second(file, text),
        (_, Edition::First) => listing::listing(file, text),
        (_, Edition::Second) => listing::listing_second(file, text),
    }
}
