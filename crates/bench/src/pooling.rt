// The verb `pool FILE..`: one spread for several jobs, files of the first edition. It prints a line for each job, `job NAME v beta Q f k`, and `pooled Q f k`,
// or the refusal with the file that it speaks of.
use crate::failures::Failure;
use crate::figures::{Measured, solve};
use crate::files::read_first_job;
use crate::refusals::{refuse, say_refused};
use crate::system::put_line;
use crate::verbs::Verb;
use printing::put_escaped;
use records::Refusal;
use std::alloc::{AllocError, Global};

// The largest number of jobs.
const POOL_LIMIT: usize = 64;

// The refusal of no jobs, or of too many, which speaks of no file.
const NO_POOL: u8 = 18;

// Lays the files end to end and pools them. Of more than 64 none is read: the call refuses so many, whatever they are.
pub(crate) fn pool<'a>(rt: &HostRuntime, names: &'a [Vec<u8>]) -> Result<(), Failure<'a>> {
    if names.is_empty() {
        return Err(Failure::Misused(Verb::Pool));
    }
    let mut bytes = Vec::new(rt.alloc());
    let mut lengths = Vec::new(rt.alloc());
    if names.len() <= POOL_LIMIT {
        for name in names {
            let file = read_first_job(rt, name)?;
            bytes.extend_from_slice(&file)?;
            lengths.push(file.len())?;
        }
    }
    let pooled = job::pool(&bytes, &lengths);
    if let Err(why) = pooled.verdict {
        return Ok(refuse_job(rt, why, names.get(pooled.index))?);
    }
    let mut rest = &bytes[..];
    for (name, length) in names.iter().zip(lengths.iter()) {
        put_job(rt, name, rest.get(..*length).unwrap_or(rest))?;
        rest = rest.get(*length..).unwrap_or(b"");
    }
    put_line(
        rt,
        format_args!("pooled {}", Measured::from(pooled.spreading)),
    );
    Ok(())
}

// What one job gives: its line.
fn put_job(rt: &HostRuntime, name: &[u8], file: &[u8]) -> Result<(), AllocError> {
    let mut values = [0i64; 50];
    let solved = solve(file, &mut values);
    let v = solved.parameters.v;
    // how much more often two objects oppose than they share a side
    let beta = solved.parameters.l2.saturating_sub(solved.parameters.l1);
    let name = escaped(rt.alloc(), name)?;
    let measured = Measured::from(solved.spreading);
    put_line(rt, format_args!("job {name} {v} {beta} {measured}"));
    Ok(())
}

// A name, so that it breaks no line and no column: four letters at most for each byte, all of them ASCII.
fn escaped(alloc: Global, name: &[u8]) -> Result<String, AllocError> {
    let mut letters = vec![in alloc; 0u8; name.len().saturating_mul(4)]?;
    let length = put_escaped(&mut letters, 0, name);
    letters.truncate(length);
    String::from_utf8_lossy(alloc, &letters)
}

// A refusal, with the file that it speaks of.
fn refuse_job(rt: &HostRuntime, why: Refusal, name: Option<&Vec<u8>>) -> Result<(), AllocError> {
    let Refusal { number, place } = why;
    match name {
        Some(name) if number != NO_POOL => {
            say_refused(rt, b"", why);
            let name = escaped(rt.alloc(), name)?;
            put_line(rt, format_args!("refused {number} {place} {name}"));
        }
        _ => refuse(rt, b"", why),
    }
    Ok(())
}
