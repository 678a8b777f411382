// Q and the spread of a job. They do not depend on the restraint, so any accepted one serves: objects 0 and 1 with the sum 0.
ghost use Rattle.std.specs.Prelude.{◌≡◌, ◌-◌, ◌*◌, length};
ghost use Rattle.arithmetic.specs.Hundredths.{spreading_from};
ghost use Rattle.meaning.specs.Analysis.{freedom};
ghost use Rattle.meaning.specs.Wide.{value, wide};
ghost use Rattle.meaning.specs.Calls.{solved_under, deviations_verdict, deviations_after, qAnswer, spread_answer};
ghost use Rattle.analysis.specs.Worked.{Measured};

use crate::whole::analyse;
use arithmetic::{spread_from, subtract, times};
use design::objects;
use records::{Head, JobSpread, Solved, Spreading, SquareSum, Wide};

// Q.
pub fn q(head: Head, blocks: &[u8], readings: &[i32]) -> SquareSum
    ensures { result ≡ qAnswer head blocks.now readings.now }
{
    let measured = spread(head, blocks, readings);
    let verdict = measured.verdict;
    let spreading = measured.spreading;
    let sum = spreading.q;
    SquareSum { verdict, sum }
}

// The spread, with all that it is made from.
pub fn spread(head: Head, blocks: &[u8], readings: &[i32]) -> JobSpread
    ensures { result ≡ spread_answer head blocks.now readings.now }
{
    let mut deviation_room = [0i64; 1300];
    let solved = worked(head, blocks, readings, &mut deviation_room);
    let verdict = solved.verdict;
    let spreading = solved.spreading;
    JobSpread { verdict, spreading }
}

// The job worked out, its deviations into lent room and the rest into rooms of its own that are long enough.
pub(crate) fn worked(head: Head, blocks: &[u8], readings: &[i32], deviations: &mut [i64]) -> Solved
    ensures value { result ≡ solved_under (deviations_verdict head blocks.now readings.now (length deviations.old))
        head blocks.now readings.now 3 }
    ensures deviations_after { deviations.new ≡ deviations_after head blocks.now readings.now deviations.old }
{
    let mut words = [0u64; 2600];
    let mut values = [0i64; 50];
    analyse(
        head,
        blocks,
        readings,
        3,
        0,
        &mut words,
        &mut values,
        deviations,
    )
}

// The spread, from v·beta, the sum of the squared readings and that of the squared totals.
pub(crate) fn measure(head: Head, vbeta: u64, readings: Wide, totals: Wide) -> Spreading
    requires { Measured head vbeta (value readings) (value totals) }
    ensures { result ≡ spreading_from (wide (vbeta * value readings - value totals)) vbeta (freedom head) }
{
    let scaled = times(readings, vbeta);
    let q = subtract(scaled, totals);
    let freedom = head.m * head.n + 1 - objects(head);
    spread_from(q, vbeta, freedom as u64)
}
