// The text for any byte string: a job file worked out, and its lines put into lent room.
ghost use Rattle.std.specs.Prelude.{◌≡◌, ◌≤◌, length};
ghost use Rattle.meaning.specs.Text.{listed_answer, listed_after, text_answer, text_after};
ghost use Rattle.listing.specs.Sheet.{sheet_of};

use analysis::publishing::column;
use fields::held;
use records::{Listed, Solved};

// The text for a file at the front of `out`, whose other bytes stay: the listing of an accepted job, or the line of its refusal. Without room for all
// of it nothing is written. The rooms of its own are those of the largest job.
pub fn listing(bytes: &[u8], out: &mut [u8]) -> Listed
    ensures value { result ≡ listed_answer bytes.now (length out.old) }
    ensures out_after { out.new ≡ listed_after bytes.now out.old }
{
    let mut words = [0u64; 2600];
    let mut values = [0i64; 50];
    let mut deviations = [0i64; 1300];
    let solved = job::solve(bytes, &mut words, &mut values, &mut deviations);
    let held = held(bytes);
    let hundredths = column(&values, solved.denominator, held.set);
    render_first(solved, &values, &hundredths, &deviations, out)
}

// The text of what was worked out, from the first numbers of two rooms: one for each object and one for each block.
pub(crate) fn render_first(
    solved: Solved,
    values: &[i64],
    hundredths: &[i64],
    deviations: &[i64],
    out: &mut [u8],
) -> Listed
    requires { (solved.parameters.v ≤ length values.now) × (solved.parameters.v ≤ length hundredths.now)
        × (solved.parameters.b ≤ length deviations.now) }
    ensures value { result ≡ text_answer (sheet_of solved values.now hundredths.now deviations.now)
        (length out.old) }
    ensures out_after { out.new ≡ text_after (sheet_of solved values.now hundredths.now deviations.now)
        out.old }
{
    let v = solved.parameters.v as usize;
    let b = solved.parameters.b as usize;
    crate::text::render(solved, &values[..v], hundredths, &deviations[..b], out)
}
