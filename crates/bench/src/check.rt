// The verb `check JOB SHEET`: another laboratory's sheet, as text, against its job, of either edition. It prints `agrees`, or
// `differs OBJECT claimed X is Y`, in hundredths of a count, or `differs spread claimed F K is F K`, or the refusal.
use crate::failures::Failure;
use crate::figures::{Stated, solve};
use crate::files::{Edition, TEXT_LIMIT, edition_of, read_job, read_text};
use crate::refusals::refuse;
use crate::system::{put_line, say_line};
use crate::verbs::Verb;
use analysis::publishing::column;
use fields::held;
use records::{Agreement, Checked, SheetSpread, Spread};
use sheets::{claimed_spread, read_sheet};

// Reads both files, and checks what the sheet claims. Room for one claim more than a job has objects: a longer list is of the wrong length all the same.
pub(crate) fn check<'a>(rt: &HostRuntime, rest: &'a [Vec<u8>]) -> Result<(), Failure<'a>> {
    let [job, sheet] = rest else {
        return Err(Failure::Misused(Verb::Check));
    };
    let file = read_job(rt, job)?;
    let text = read_text(rt, sheet)?;
    if TEXT_LIMIT < text.len() {
        return Err(Failure::LongSheet);
    }
    let mut claims = [0i64; 51];
    let read = read_sheet(&text, &mut claims);
    if let Some(line) = read.line {
        return Err(Failure::UnreadSheet(line));
    }
    // a text whose lines can all be read has a spread line
    if let Some(spread) = read.spread {
        check_claims(rt, &file, &claims[..read.count.min(51)], spread);
    }
    Ok(())
}

// Checks the claims, and says what comes of it.
fn check_claims(rt: &HostRuntime, file: &[u8], claims: &[i64], spread: SheetSpread) {
    match check_job(file, claims, claimed_spread(spread)) {
        Ok(Agreement::Agrees) => put_line(rt, "agrees"),
        Ok(Agreement::Differs(at)) => {
            say_line(rt, "differs: the sheet does not agree with its job");
            match claims.get(at) {
                Some(claim) => put_object(rt, file, at, *claim),
                None => put_spread(rt, file, spread),
            }
        }
        Err(why) => refuse(rt, file, why),
    }
}

// The call for the edition of the job.
fn check_job(file: &[u8], claims: &[i64], claimed: Option<Spread>) -> Checked {
    match edition_of(file) {
        Edition::First => job::check_file(file, claims, claimed),
        Edition::Second => job::check_second(file, claims, claimed),
    }
}

// What is claimed of an object, and what it is, its published hundredths.
fn put_object(rt: &HostRuntime, file: &[u8], at: usize, claim: i64) {
    let mut values = [0i64; 50];
    let solved = solve(file, &mut values);
    let hundredths = column(&values, solved.denominator, restraint(file));
    if let Some(is) = hundredths.get(at) {
        put_line(rt, format_args!("differs {at} claimed {claim} is {is}"));
    }
}

// What is claimed of the spread, and what it is.
fn put_spread(rt: &HostRuntime, file: &[u8], spread: SheetSpread) {
    let mut values = [0i64; 50];
    let is = Stated::from(solve(file, &mut values).spreading);
    let claimed = Stated::from(spread);
    put_line(rt, format_args!("differs spread claimed {claimed} is {is}"));
}

// The restraint set of a job.
fn restraint(file: &[u8]) -> u64 {
    match edition_of(file) {
        Edition::First => held(file).set,
        Edition::Second => job::set_second(file),
    }
}
