// Numbers of two words of 64 bits by value: product, sum, difference, order, quotient and root, with no number above 64 bits on the way. All are total:
// what is above 128 bits is lost.
ghost use Rattle.std.specs.Prelude.{◌≡◌, ◌+◌, ◌*◌, ◌-◌, leb};
ghost use Rattle.meaning.specs.Analysis.{root as rootOf};
ghost use Rattle.meaning.specs.Wide.{value, wide};
ghost use Rattle.arithmetic.specs.Division.{divided};

use records::Wide;

// One more than the largest half of a word.
const HALF: u64 = 4294967296;

// A quotient and what is left.
#[derive(Clone, Copy)]
pub struct Divided {
    pub quotient: Wide,
    pub rest: u64,
}

// The product of two words, by halves of 32 bits: no number on the way is above 64 bits, and edits that must fail turn single products of the halves.
pub fn product(a: u64, b: u64) -> Wide
    ensures { result ≡ wide (a * b) }
{
    let a1 = a / HALF;
    let a0 = a % HALF;
    let b1 = b / HALF;
    let b0 = b % HALF;
    let first = a0 * b0;
    let second = a1 * b0 + first / HALF;
    let third = a0 * b1 + second % HALF;
    Wide {
        high: a1 * b1 + second / HALF + third / HALF,
        low: third % HALF * HALF + first % HALF,
    }
}

// The sum of two words.
fn sum(a: u64, b: u64) -> Wide
    ensures { result ≡ wide (a + b) }
{
    let (low, carry) = a.overflowing_add(b);
    Wide {
        high: u64::from(carry),
        low,
    }
}

// The sum.
pub fn add(x: Wide, y: Wide) -> Wide
    ensures { result ≡ wide (value x + value y) }
{
    let low = sum(x.low, y.low);
    let high = sum(x.high, y.high);
    let carried = sum(high.low, low.high);
    Wide {
        high: carried.low,
        low: low.low,
    }
}

// A sum of squares and one square more.
pub fn add_square(sum: Wide, size: u64) -> Wide
    ensures { result ≡ wide (value sum + size * size) }
{
    add(sum, product(size, size))
}

// Whether x is at most y.
pub fn at_most(x: Wide, y: Wide) -> bool
    ensures { result ≡ leb (value x) (value y) }
{
    x.high < y.high || (x.high == y.high && x.low <= y.low)
}

// The difference, 0 where y is above x.
pub fn subtract(x: Wide, y: Wide) -> Wide
    ensures { result ≡ wide (value x - value y) }
{
    if at_most(x, y) {
        return Wide { high: 0, low: 0 };
    }
    let (low, borrow) = x.low.overflowing_sub(y.low);
    Wide {
        high: x.high - y.high - u64::from(borrow),
        low,
    }
}

// c times x.
pub fn times(x: Wide, c: u64) -> Wide
    ensures { result ≡ wide (value x * c) }
{
    let low = product(x.low, c);
    let high = product(x.high, c);
    let top = sum(high.low, low.high);
    Wide {
        high: top.low,
        low: low.low,
    }
}

// x by d, for d from 1 to 2 ^ 32 - 1: the high word, then the two halves of the low word. Else 0 and 0.
pub fn divide(x: Wide, d: u64) -> Divided
    ensures { result ≡ divided (value x) d }
{
    if d == 0 || d >= HALF {
        return Divided {
            quotient: Wide { high: 0, low: 0 },
            rest: 0,
        };
    }
    let first = x.high % d * HALF + x.low / HALF;
    let second = first % d * HALF + x.low % HALF;
    Divided {
        quotient: Wide {
            high: x.high / d,
            low: first / d * HALF + second / d,
        },
        rest: second % d,
    }
}

// The largest whole number whose square is at most x, by halving.
pub(crate) fn root(x: Wide) -> u64
    ensures { result ≡ rootOf 64 (value x) }
{
    // Halving counts no place, so no loop over a range stands for it.
    let mut low = 0;
    let mut high = u64::MAX;
    while low < high {
        let middle = high - (high - low) / 2;
        if at_most(product(middle, middle), x) {
            low = middle;
        } else {
            high = middle - 1;
        }
    }
    low
}
