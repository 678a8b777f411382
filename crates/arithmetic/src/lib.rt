// The numbers that are published, and numbers of two words. The face: a Value from its fraction, the hundredths nearest to a fraction and those at or
// below it, the size of a signed number, the spread from Q, v·beta and f; product, sum, difference, order and quotient of numbers of two words. Each is
// total.
#![tactic(auto)]

mod quotient;
mod rounding;
mod spread;
mod uncertainty;
mod wide;

pub use quotient::{size, value_from};
pub use rounding::{hundredths, hundredths_below, hundredths_part};
pub use spread::spread_from;
pub use uncertainty::uncertainty_from;
pub use wide::{Divided, add, add_square, at_most, divide, product, subtract, times};
