// The verb `practice JOB START WIDTH VALUE..`: a practice job, as a file of the first edition, with the design and the restraint set of a job of either
// edition. The file goes to standard output.
use crate::failures::Failure;
use crate::figures::read_verdict;
use crate::files::{blocks_of, fields_of, read_job};
use crate::numerals::number_of;
use crate::refusals::refuse;
use crate::system::put_text;
use crate::verbs::Verb;
use fields::held;
use practice::practice_file;

// A width that is out of its range.
const NO_WIDTH: usize = 9;

// What the readings are made from, beside the design and the true values.
#[derive(Clone, Copy)]
struct Noise {
    start: u32,
    width: usize,
}

// Reads the job and the numbers. The job's own refusals come first.
pub(crate) fn practise<'a>(rt: &HostRuntime, rest: &'a [Vec<u8>]) -> Result<(), Failure<'a>> {
    let [name, start, width, values @ ..] = rest else {
        return Err(Failure::Misused(Verb::Practice));
    };
    let file = read_job(rt, name)?;
    let noise = noise_of(number_of(start)?, number_of(width)?);
    let mut truths = Vec::new(rt.alloc());
    for value in values {
        truths.push(truth(number_of(value)?))?;
    }
    match read_verdict(&file) {
        Ok(()) => write_practice(rt, fields_of(&file), noise, &truths),
        Err(why) => {
            refuse(rt, &file, why);
            Ok(())
        }
    }
}

// A true value. One that is out of an i32 is out of the range of true values too, and so is the range's end, which stands for it.
fn truth(number: i64) -> i32 {
    i32::try_from(number).unwrap_or(i32::MAX)
}

// The start number and the width. Where the start number has not 32 bits, a width that is out of its range stands beside 0: both are refused alike, after
// all that comes before them. A width below 0 is out of its range as the largest is.
fn noise_of(start: i64, width: i64) -> Noise {
    match u32::try_from(start) {
        Ok(start) => Noise {
            start,
            width: usize::try_from(width).unwrap_or(usize::MAX),
        },
        Err(_) => Noise {
            start: 0,
            width: NO_WIDTH,
        },
    }
}

// Writes the practice job over the design and the restraint set that stand in four fields. 8,192 bytes are room for every file of the first edition.
fn write_practice<'a>(
    rt: &HostRuntime,
    fields: &[u8],
    noise: Noise,
    truths: &[i32],
) -> Result<(), Failure<'a>> {
    let held = held(fields);
    let blocks = blocks_of(fields);
    let mut file = vec![in rt.alloc(); 0u8; 8192]?;
    let written = practice_file(
        held.head,
        blocks,
        truths,
        noise.start,
        noise.width,
        held.set,
        &mut file,
    );
    match written.verdict {
        Ok(()) => {
            file.truncate(written.length);
            put_text(rt, &file);
        }
        Err(why) => refuse(rt, b"", why),
    }
    Ok(())
}
