// How a call ends: whether a verdict refuses, and the zeros that a refusal hands back beside it, for each kind of answer.
#![tactic(auto)]

ghost use Rattle.std.specs.Prelude.{◌≡◌, true, false};
ghost use Rattle.meaning.specs.Refusals.{◌⨾◌};
ghost use Rattle.meaning.specs.Calls.{given, no_parameters, square_sum};
ghost use Rattle.verdicts.specs.Zeros.{no_judgement, no_solution, no_total, no_value_under, no_deviation, no_job};

use records::{
    BlockDeviation, Head, JobRead, Judged, ObjectTotal, ObjectValue, Parameters, Solved, Spreading,
    SquareSum, Value, Verdict, Wide,
};

// Whether a verdict refuses.
pub fn is_refused(verdict: Verdict) -> bool
    ensures { result ≡ given verdict false true }
{
    verdict.is_err()
}

// One test after another: the first of two verdicts that refuses.
pub fn first(before: Verdict, after: Verdict) -> Verdict
    ensures { result ≡ before ⨾ after }
{
    before.and(after)
}

// What a refusing judgement hands back: its verdict, and zeros.
pub fn no_judgement(verdict: Verdict) -> Judged
    ensures { result ≡ no_judgement verdict }
{
    let parameters = no_parameters();
    Judged {
        verdict,
        parameters,
    }
}

// What a refused job hands back: its verdict, and zeros.
pub fn no_solution(refusal: Verdict) -> Solved
    ensures { result ≡ no_solution refusal }
{
    let parameters = no_parameters();
    let spreading = Spreading {
        q: Wide { high: 0, low: 0 },
        vbeta: 0,
        freedom: 0,
        hundredths: 0,
        spread: None,
    };
    Solved {
        verdict: refusal,
        parameters,
        denominator: 0,
        spreading,
    }
}

// What a refused total hands back.
pub fn no_total(verdict: Verdict) -> ObjectTotal
    ensures { result ≡ no_total verdict }
{
    ObjectTotal { verdict, total: 0 }
}

// What a refused sum of squares hands back.
#[tactic(auto, using(crate::proofs::Sums::square_none))]
pub fn no_sum(verdict: Verdict) -> SquareSum
    ensures { result ≡ square_sum verdict 0 }
{
    let sum = Wide { high: 0, low: 0 };
    SquareSum { verdict, sum }
}

// What a refused value hands back.
pub fn no_value(verdict: Verdict) -> ObjectValue
    ensures { result ≡ no_value_under verdict }
{
    let value = Value {
        numerator: 0,
        denominator: 0,
        hundredths: 0,
        value: 0.0,
        factor: 0,
        factor_value: 0.0,
    };
    ObjectValue { verdict, value }
}

// What a refused deviation hands back.
pub fn no_deviation(verdict: Verdict) -> BlockDeviation
    ensures { result ≡ no_deviation verdict }
{
    let numerator: i64 = 0;
    let denominator: u64 = 0;
    BlockDeviation {
        verdict,
        numerator,
        denominator,
    }
}

// What a refused reading of a file hands back.
pub fn no_job(verdict: Verdict) -> JobRead
    ensures { result ≡ no_job verdict }
{
    let head = Head {
        n: 0,
        flag: 0,
        p: 0,
        m: 0,
    };
    JobRead {
        verdict,
        head,
        blocks_at: 0,
        readings_at: 0,
        set: 0,
        sum: 0,
    }
}

// The parameters of no design.
fn no_parameters() -> Parameters
    ensures { result ≡ no_parameters }
{
    Parameters {
        v: 0,
        b: 0,
        r: 0,
        p: 0,
        l1: 0,
        l2: 0,
    }
}
