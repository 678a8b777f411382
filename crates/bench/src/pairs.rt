// Two pairs of objects by which an unbalanced design is told. Two objects of a developed design meet as object 0 and one so far from it do
// (balance::judge_by_differences), so the first pair that does not meet as the objects 0 and 1 do is one of object 0.
ghost use Rattle.std.specs.Prelude.{◌≡◌, ◌<◌};
ghost use Rattle.bench.specs.Pairs.{odd, first_odd};

use crate::files::blocks_of;
use balance::{company, opposition};
use design::objects;
use fields::held;
use std::fmt;

// How objects 0 and `object` meet, how often, and how often the objects 0 and 1 do.
#[derive(Clone, Copy)]
pub struct OddPair {
    object: usize,
    meet: Meet,
    often: Times,
    usual: Times,
}

#[derive(Clone, Copy, PartialEq, Eq)]
pub enum Meet {
    ShareASide,
    Oppose,
}

#[derive(Clone, Copy, PartialEq, Eq)]
pub struct Times(u64);

impl fmt::Display for OddPair {
    fn fmt<W: fmt::Write>(&self, f: &mut fmt::Formatter<W>) -> fmt::Result {
        let OddPair {
            object,
            meet,
            often,
            usual,
        } = *self;
        write!(
            f,
            "objects 0 and {object} {meet} {often}, objects 0 and 1 {usual}"
        )
    }
}

impl fmt::Display for Meet {
    fn fmt<W: fmt::Write>(&self, f: &mut fmt::Formatter<W>) -> fmt::Result {
        f.write_str(match self {
            Meet::ShareASide => "share a side",
            Meet::Oppose => "oppose",
        })
    }
}

impl fmt::Display for Times {
    fn fmt<W: fmt::Write>(&self, f: &mut fmt::Formatter<W>) -> fmt::Result {
        let count = self.0;
        match count {
            1 => write!(f, "1 time"),
            _ => write!(f, "{count} times"),
        }
    }
}

// The pair of the design that stands in four fields; none where each object meets object 0 as object 1 does.
pub(crate) fn odd_pair(fields: &[u8]) -> Option<OddPair> {
    let head = held(fields).head;
    let company = company(head, blocks_of(fields))[0];
    let opposition = opposition(head, blocks_of(fields))[0];
    let object = first_odd(&company, &opposition);
    if objects(head).min(50) <= object {
        return None;
    }
    let (meet, row) = if company[object] == company[1] {
        (Meet::Oppose, &opposition)
    } else {
        (Meet::ShareASide, &company)
    };
    Some(OddPair {
        object,
        meet,
        often: Times(row[object]),
        usual: Times(row[1]),
    })
}

// The first object from 2 on that meets object 0 otherwise than object 1 does, by the rows of object 0 in the two pair tables; 50 where there is none.
fn first_odd(company: &[u64; 50], opposition: &[u64; 50]) -> usize
    ensures { result ≡ first_odd company.now opposition.now }
{
    for j in 2..50 {
        if is_odd(company, opposition, j) {
            return j;
        }
    }
    50
}

// Whether object j meets object 0 otherwise than object 1 does.
#[tactic(auto, unfolding(crate::specs::Pairs::odd))]
fn is_odd(company: &[u64; 50], opposition: &[u64; 50], j: usize) -> bool
    requires { j < 50 }
    ensures { result ≡ odd company.now opposition.now j }
{
    company[j] != company[1] || opposition[j] != opposition[1]
}
