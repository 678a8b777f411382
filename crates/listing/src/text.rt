// The listing of what was worked out: its lines one after the other, rendered into lent room.
ghost use Rattle.std.specs.Prelude.{◌≡◌, ◌≤◌, length};
ghost use Rattle.algebra.specs.Buffers.{Wrote};
ghost use Rattle.meaning.specs.Text.{text_answer, text_after};
ghost use Rattle.listing.specs.Sheet.{value_lines, deviation_lines, job_lines, sheet_text};

use records::{Listed, Refusal, Solved};

// A line for each value: its numerator is in one slice, its published hundredths in another.
fn put_values(
    out: &mut [u8],
    at: usize,
    numerators: &[i64],
    hundredths: &[i64],
    denominator: u64,
) -> usize
    requires { length numerators.now ≤ length hundredths.now }
    ensures { Wrote out.old at
        (value_lines numerators.now hundredths.now denominator (length numerators.now)) out.new result }
{
    let mut place = at;
    for (i, (numerator, published)) in numerators.iter().zip(hundredths).enumerate() {
        place = crate::lines::put_value(out, place, i, *numerator, denominator, *published);
    }
    place
}

// A line for each deviation.
fn put_deviations(out: &mut [u8], at: usize, numerators: &[i64], denominator: u64) -> usize
    ensures { Wrote out.old at
        (deviation_lines numerators.now denominator (length numerators.now)) out.new result }
{
    let mut place = at;
    for (k, numerator) in numerators.iter().enumerate() {
        place = crate::lines::put_deviation(out, place, k, *numerator, denominator);
    }
    place
}

// All lines of an accepted job.
fn put_job(
    out: &mut [u8],
    at: usize,
    solved: Solved,
    values: &[i64],
    hundredths: &[i64],
    deviations: &[i64],
) -> usize
    requires { length values.now ≤ length hundredths.now }
    ensures { Wrote out.old at (job_lines solved values.now hundredths.now
        deviations.now) out.new result }
{
    let after_design = crate::lines::put_design(out, at, solved.parameters);
    let after_values = put_values(out, after_design, values, hundredths, solved.denominator);
    let after_deviations = put_deviations(out, after_values, deviations, solved.spreading.vbeta);
    crate::lines::put_spread(out, after_deviations, solved.spreading)
}

// The listing, or the line of the refusal.
fn put_listing(
    out: &mut [u8],
    at: usize,
    solved: Solved,
    values: &[i64],
    hundredths: &[i64],
    deviations: &[i64],
) -> usize
    requires { length values.now ≤ length hundredths.now }
    ensures { Wrote out.old at
        (sheet_text solved values.now hundredths.now deviations.now) out.new result }
{
    match solved.verdict {
        Ok(()) => put_job(out, at, solved, values, hundredths, deviations),
        Err(Refusal { number, place }) => crate::lines::put_refused(out, at, number, place),
    }
}

// The text at the front of `out`, whose other bytes stay. A run over one byte of its own finds the length first, so that nothing is written where it
// has no room.
pub(crate) fn render(
    solved: Solved,
    values: &[i64],
    hundredths: &[i64],
    deviations: &[i64],
    out: &mut [u8],
) -> Listed
    requires { length values.now ≤ length hundredths.now }
    ensures value { result ≡ text_answer (sheet_text solved values.now hundredths.now deviations.now)
        (length out.old) }
    ensures out_after { out.new ≡ text_after (sheet_text solved values.now hundredths.now deviations.now)
        out.old }
{
    let mut one = [0u8; 1];
    let length = put_listing(&mut one, 0, solved, values, hundredths, deviations);
    if out.len() < length {
        return Listed {
            verdict: Err(Refusal {
                number: 10,
                place: 0,
            }),
            length: 0,
        };
    }
    put_listing(out, 0, solved, values, hundredths, deviations);
    Listed {
        verdict: Ok(()),
        length,
    }
}
