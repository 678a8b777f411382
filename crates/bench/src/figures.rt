// What a job of either edition gives, and spreads as they stand in a line.
use crate::files::{Edition, edition_of};
use records::{SheetSpread, Solved, Spreading, Verdict};
use std::fmt;

// The job worked out.
pub(crate) fn solve(file: &[u8], values: &mut [i64; 50]) -> Solved {
    let mut words = [0u64; 2600];
    let mut deviations = [0i64; 1300];
    match edition_of(file) {
        Edition::First => job::solve(file, &mut words, values, &mut deviations),
        Edition::Second => job::solve_second(file, &mut words, values, &mut deviations),
    }
}

// The verdict of reading it.
pub(crate) fn read_verdict(file: &[u8]) -> Verdict {
    match edition_of(file) {
        Edition::First => job::read(file).verdict,
        Edition::Second => job::read_second(file).job.verdict,
    }
}

// A spread in a line: degrees of freedom, and the hundredths or none.
#[derive(Clone, Copy)]
pub struct Stated {
    pub freedom: u64,
    pub hundredths: Option<u64>,
}

impl fmt::Display for Stated {
    fn fmt<W: fmt::Write>(&self, f: &mut fmt::Formatter<W>) -> fmt::Result {
        let freedom = self.freedom;
        match self.hundredths {
            Some(hundredths) => write!(f, "{freedom} {hundredths}"),
            None => write!(f, "{freedom} none"),
        }
    }
}

// What a sheet claims of it.
impl From<SheetSpread> for Stated {
    fn from(claimed: SheetSpread) -> Stated {
        let SheetSpread {
            freedom,
            hundredths,
        } = claimed;
        Stated {
            freedom,
            hundredths,
        }
    }
}

// What a job gives: without degrees of freedom there are no hundredths.
impl From<Spreading> for Stated {
    fn from(spreading: Spreading) -> Stated {
        let freedom = spreading.freedom;
        let hundredths = if freedom == 0 {
            None
        } else {
            Some(spreading.hundredths)
        };
        Stated {
            freedom,
            hundredths,
        }
    }
}

// Q, and the spread behind it.
#[derive(Clone, Copy)]
pub struct Measured {
    q: u128,
    stated: Stated,
}

impl fmt::Display for Measured {
    fn fmt<W: fmt::Write>(&self, f: &mut fmt::Formatter<W>) -> fmt::Result {
        let Measured { q, stated } = *self;
        write!(f, "{q} {stated}")
    }
}

impl From<Spreading> for Measured {
    fn from(spreading: Spreading) -> Measured {
        let q = spreading.q;
        Measured {
            q: u128::from(q.high) << 64 | u128::from(q.low),
            stated: Stated::from(spreading),
        }
    }
}
