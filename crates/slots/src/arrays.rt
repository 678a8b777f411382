// The slots of an answer as an array, in their order.
ghost use Rattle.std.specs.Prelude.{◌≡◌};
ghost use Rattle.meaning.specs.Publishing.{spread_value};
ghost use Rattle.slots.specs.Slots.{parameter_slots, has_spread, stated_slots, stated_value, spreading_slots, solved_slots, read_slots, second_slots};

use records::{JobRead, Parameters, SecondRead, Solved, Spread, Spreading, Uncertainty};

// The parameters of a design.
pub(crate) fn parameter_slots(parameters: Parameters) -> [u64; 6]
    ensures { result ≡ parameter_slots parameters }
{
    [
        parameters.v,
        parameters.b,
        parameters.r,
        parameters.p,
        parameters.l1,
        parameters.l2,
    ]
}

// What a spread is made from.
pub(crate) fn spreading_slots(spreading: Spreading) -> [u64; 6]
    ensures { result ≡ spreading_slots spreading }
{
    [
        spreading.q.high,
        spreading.q.low,
        spreading.vbeta,
        spreading.freedom,
        spreading.hundredths,
        has_spread(spreading.spread),
    ]
}

// A job worked out.
pub(crate) fn solved_slots(solved: Solved) -> [u64; 13]
    ensures { result ≡ solved_slots solved }
{
    let design = solved.parameters;
    let measured = solved.spreading;
    [
        design.v,
        design.b,
        design.r,
        design.p,
        design.l1,
        design.l2,
        solved.denominator,
        measured.q.high,
        measured.q.low,
        measured.vbeta,
        measured.freedom,
        measured.hundredths,
        has_spread(measured.spread),
    ]
}

// A job that was read.
pub(crate) fn read_slots(read: JobRead) -> [u64; 7]
    ensures { result ≡ read_slots read }
{
    let head = read.head;
    [
        head.n as u64,
        head.flag as u64,
        head.p as u64,
        head.m as u64,
        read.blocks_at as u64,
        read.readings_at as u64,
        read.set,
    ]
}

// A file of the second edition that was read.
pub(crate) fn second_slots(read: SecondRead) -> [u64; 8]
    ensures { result ≡ second_slots read }
{
    let job = read.job;
    let head = job.head;
    [
        head.n as u64,
        head.flag as u64,
        head.p as u64,
        head.m as u64,
        job.blocks_at as u64,
        job.readings_at as u64,
        job.set,
        read.names_at as u64,
    ]
}

// The f64 of a spread, 0.0 where there is none.
pub(crate) fn spread_value(spread: Option<Spread>) -> f64
    ensures { result ≡ spread_value spread }
{
    spread.map_or(0.0, |stated| stated.value)
}

// A standard uncertainty: its hundredths, and 1 where it is stated, else 0 and 0.
pub(crate) fn stated_slots(uncertainty: Option<Uncertainty>) -> [u64; 2]
    ensures { result ≡ stated_slots uncertainty }
{
    match uncertainty {
        Some(Uncertainty { hundredths, .. }) => [hundredths, 1],
        None => [0, 0],
    }
}

// Its f64, 0.0 where it is not stated.
pub(crate) fn stated_value(uncertainty: Option<Uncertainty>) -> f64
    ensures { result ≡ stated_value uncertainty }
{
    uncertainty.map_or(0.0, |stated| stated.value)
}

// 1 where there is a spread, and 0 where there is none.
fn has_spread(spread: Option<Spread>) -> u64
    ensures { result ≡ has_spread spread }
{
    u64::from(spread.is_some())
}
