// The spread of several job files pooled: they are laid end to end, and a list has their lengths. One pass works each job out, adds what it gives and
// marks the first that differs from job 0. A bad job ends it, so that its own refusal comes before any 17.
ghost use Rattle.std.specs.Prelude.{◌≡◌, length, eqb, ◌<◌};
ghost use Rattle.meaning.specs.Pooled.{pool_limit, lengths_sum, pooled_answer, jobs_in};
ghost use Rattle.job.specs.Taking.{adds_up, EndToEnd, worked_job, no_pool, no_sums, alike_with, with_job, Taken, finished, pooled_from};

use crate::solving::solve;
use arithmetic::{add, spread_from};
use records::{Pooled, Refusal, Solved, Spreading, Verdict, Wide};
use verdicts::is_refused;

// The largest number of jobs.
const POOL_LIMIT: usize = 64;

// What is pooled so far: v, beta and v·beta of job 0; the sum of Q and that of f; how many jobs from the first on have v and beta of job 0.
#[derive(Clone, Copy)]
pub struct Sums {
    pub v: u64,
    pub beta: u64,
    pub vbeta: u64,
    pub q: Wide,
    pub freedom: u64,
    pub alike: usize,
}

// Pools the files of the first edition that `bytes` holds, cut by the list of their lengths.
pub fn pool(bytes: &[u8], lengths: &[usize]) -> Pooled
    ensures { result ≡ pooled_answer bytes.now lengths.now }
{
    if add_up(bytes.len(), lengths) {
        return pool_jobs(bytes, lengths);
    }
    no_pool(
        Err(Refusal {
            number: 18,
            place: 0,
        }),
        0,
    )
}

// Whether there are jobs, at most 64, and their lengths add to a total.
fn add_up(total: usize, lengths: &[usize]) -> bool
    ensures { result ≡ adds_up total lengths.now }
{
    (1..=POOL_LIMIT).contains(&lengths.len()) && sum_is(total, lengths)
}

// Whether the lengths add to a total: each is taken away from what is left, so that no sum is made that could be too large.
fn sum_is(total: usize, lengths: &[usize]) -> bool
    ensures { result ≡ eqb (lengths_sum lengths.now) total }
{
    let mut left = total;
    for &length in lengths {
        if left < length {
            return false;
        }
        left -= length;
    }
    left == 0
}

// Pools the jobs one after another; the first bad one ends it.
fn pool_jobs(bytes: &[u8], lengths: &[usize]) -> Pooled
    requires { EndToEnd (length bytes.now) lengths.now }
    ensures { result ≡ pooled_from 0 no_sums (jobs_in bytes.now lengths.now) }
{
    let mut sums = Sums {
        v: 0,
        beta: 0,
        vbeta: 0,
        q: Wide { high: 0, low: 0 },
        freedom: 0,
        alike: 0,
    };
    let mut start = 0;
    for (i, &length) in lengths.iter().enumerate() {
        let end = start + length;
        let solved = work_out(&bytes[start..end]);
        // A refusal hands back zeros too, so that the question mark does not serve.
        let verdict = solved.verdict;
        if is_refused(verdict) {
            return no_pool(verdict, i);
        }
        sums = with_job(sums, i, solved);
        start = end;
    }
    finish(sums, lengths.len())
}

// Works one file out in rooms of its own, which are long enough for every file.
fn work_out(bytes: &[u8]) -> Solved
    ensures { result ≡ worked_job bytes.now }
{
    let mut words = [0u64; 2600];
    let mut values = [0i64; 50];
    let mut deviations = [0i64; 1300];
    solve(bytes, &mut words, &mut values, &mut deviations)
}

// The sums with job i in them: they start with job 0, and every later job is held against its v and beta.
#[tactic(auto, unfolding(crate::specs::Taking::with_job))]
fn with_job(sums: Sums, i: usize, solved: Solved) -> Sums
    requires { Taken sums i solved }
    ensures { result ≡ with_job sums i solved }
{
    let design = solved.parameters;
    let measured = solved.spreading;
    let v = design.v;
    let beta = design.l2 - design.l1;
    if i == 0 {
        return Sums {
            v,
            beta,
            vbeta: measured.vbeta,
            q: measured.q,
            freedom: measured.freedom,
            alike: 1,
        };
    }
    let alike = alike_with(sums, i, v, beta);
    let q = add(sums.q, measured.q);
    let freedom = sums.freedom + measured.freedom;
    Sums {
        q,
        freedom,
        alike,
        ..sums
    }
}

// How many jobs from the first on have v and beta of job 0, with job i of this v and beta.
#[tactic(auto, unfolding(crate::specs::Taking::alike_with))]
fn alike_with(sums: Sums, i: usize, v: u64, beta: u64) -> usize
    requires { i < pool_limit }
    ensures { result ≡ alike_with sums i v beta }
{
    if sums.alike == i && v == sums.v && beta == sums.beta {
        i + 1
    } else {
        sums.alike
    }
}

// The answer after the last of so many jobs: 17 where one differs from job 0, else the spread by the rule of one job.
fn finish(sums: Sums, count: usize) -> Pooled
    ensures { result ≡ finished sums count }
{
    if sums.alike != count {
        return no_pool(
            Err(Refusal {
                number: 17,
                place: 0,
            }),
            sums.alike,
        );
    }
    let spreading = spread_from(sums.q, sums.vbeta, sums.freedom);
    Pooled {
        verdict: Ok(()),
        index: 0,
        spreading,
    }
}

// What a refusal hands back: its verdict with the index, and zeros.
fn no_pool(verdict: Verdict, index: usize) -> Pooled
    ensures { result ≡ no_pool verdict index }
{
    let spreading = Spreading {
        q: Wide { high: 0, low: 0 },
        vbeta: 0,
        freedom: 0,
        hundredths: 0,
        spread: None,
    };
    Pooled {
        verdict,
        index,
        spreading,
    }
}
