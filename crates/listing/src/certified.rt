// The certificate of any byte string, read as a file of the first edition or of the second: its job worked out, and its lines put into lent room.
ghost use Rattle.std.specs.Prelude.{◌≡◌, length};
ghost use Rattle.meaning.specs.Certificate.{certified_answer, certified_after, certified_answer2, certified_after2};

use crate::certifying::certify;
use analysis::publishing::column;
use job::{read, read_second, solve, solve_second};
use records::Listed;

// The certificate of a file at the front of `out`, whose other bytes stay, or the line of its refusal. Without room for all of it nothing is written. The
// rooms of its own are those of the largest job.
pub fn certificate(bytes: &[u8], out: &mut [u8]) -> Listed
    ensures value { result ≡ certified_answer bytes.now (length out.old) }
    ensures out_after { out.new ≡ certified_after bytes.now out.old }
{
    let mut words = [0u64; 2600];
    let mut values = [0i64; 50];
    let mut deviations = [0i64; 1300];
    let solved = solve(bytes, &mut words, &mut values, &mut deviations);
    let found = read(bytes);
    let hundredths = column(&values, solved.denominator, found.set);
    certify(bytes, 0, &hundredths, solved, found, out)
}

// The same of a file of the second edition, with the names that stand in it. The two differ in each call, in its edition; what follows is one function.
pub fn certificate_second(bytes: &[u8], out: &mut [u8]) -> Listed
    ensures value { result ≡ certified_answer2 bytes.now (length out.old) }
    ensures out_after { out.new ≡ certified_after2 bytes.now out.old }
{
    let mut words = [0u64; 2600];
    let mut values = [0i64; 50];
    let mut deviations = [0i64; 1300];
    let solved = solve_second(bytes, &mut words, &mut values, &mut deviations);
    let found = read_second(bytes);
    let hundredths = column(&values, solved.denominator, found.job.set);
    certify(bytes, found.names_at, &hundredths, solved, found.job, out)
}
