// The text for a file of the second edition: its job worked out, and the lines of the job put into lent room. Names are not printed.
ghost use Rattle.std.specs.Prelude.{◌≡◌, length};
ghost use Rattle.meaning.specs.Edition2.{listed_answer2, listed_after2};

use crate::whole::render_first;
use analysis::publishing::column;
use job::{set_second, solve_second};
use records::Listed;

// The text for a file at the front of `out`, whose other bytes stay: the listing of its job, or the line of its refusal. Without room for all of it
// nothing is written. The rooms of its own are those of the largest job.
pub fn listing_second(bytes: &[u8], out: &mut [u8]) -> Listed
    ensures value { result ≡ listed_answer2 bytes.now (length out.old) }
    ensures out_after { out.new ≡ listed_after2 bytes.now out.old }
{
    let mut words = [0u64; 2600];
    let mut values = [0i64; 50];
    let mut deviations = [0i64; 1300];
    let solved = solve_second(bytes, &mut words, &mut values, &mut deviations);
    let hundredths = column(&values, solved.denominator, set_second(bytes));
    render_first(solved, &values, &hundredths, &deviations, out)
}
