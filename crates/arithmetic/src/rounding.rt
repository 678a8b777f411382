// The hundredths of a fraction: the nearest, and those at or below it with the part that is left. 0 outside the range in which its numbers are exact.
ghost use Rattle.std.specs.Prelude.{◌≡◌, ◌^◌, ◌<◌, true};
ghost use Rattle.meaning.specs.Publishing.{minus, signed, nearest};
ghost use Rattle.arithmetic.specs.Quotient.{exact, hundredths_of, below_of, part_of, lifted_of};

use crate::quotient::{is_exact, size};
use std::cmp::Ordering;

// The nearest whole number to 100 times the fraction, an exact half to the even one. The sign goes around: half to even is the same below zero.
pub fn hundredths(numerator: i64, denominator: u64) -> i64
    ensures { result ≡ hundredths_of numerator denominator }
{
    if is_exact(numerator, denominator) {
        with_sign(numerator, nearest(100 * size(numerator), denominator))
    } else {
        0
    }
}

// The whole number at or below 100 times the fraction, below zero too.
pub fn hundredths_below(numerator: i64, denominator: u64) -> i64
    ensures { result ≡ below_of numerator denominator }
{
    if is_exact(numerator, denominator) {
        let lifted = lifted(numerator, denominator);
        with_sign(numerator, lifted / denominator)
    } else {
        0
    }
}

// How far 100 times the fraction is above that, in parts of the denominator.
pub fn hundredths_part(numerator: i64, denominator: u64) -> u64
    ensures { result ≡ part_of numerator denominator }
{
    if is_exact(numerator, denominator) {
        let rest = lifted(numerator, denominator) % denominator;
        if numerator < 0 {
            denominator - 1 - rest
        } else {
            rest
        }
    } else {
        0
    }
}

// 100 times the size of a numerator; below zero with one less than the denominator added, so that the quotient of the size, cut, goes up.
fn lifted(numerator: i64, denominator: u64) -> u64
    requires { exact numerator denominator ≡ true }
    ensures { result ≡ lifted_of numerator denominator }
{
    let whole = 100 * size(numerator);
    if numerator < 0 {
        whole + (denominator - 1)
    } else {
        whole
    }
}

// size, with the sign of x.
fn with_sign(x: i64, size: u64) -> i64
    requires { size < 2 ^ 63 }
    ensures { result ≡ signed (minus x) size }
{
    if x < 0 { -(size as i64) } else { size as i64 }
}

// The nearest whole number to a / d, an exact half to the even one.
fn nearest(a: u64, d: u64) -> u64
    requires { (0 < d) × (d < 2 ^ 63) × (a < 2 ^ 63) }
    ensures { result ≡ nearest a d }
{
    let down = a / d;
    let twice = 2 * (a % d);
    match twice.cmp(&d) {
        Ordering::Less => down,
        Ordering::Equal => down + down % 2,
        Ordering::Greater => down + 1,
    }
}
