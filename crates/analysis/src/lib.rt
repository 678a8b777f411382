// A job worked out. The face: everything at once; in `values` the values or one of them; in `publishing` the published hundredths; in `deviations` the
// deviations or one of them; in `spread` Q and the spread; in `uncertainty` the standard uncertainty of an object; in `sheet` another laboratory's figures held against these.
#![tactic(auto)]

pub mod deviations;
pub mod publishing;
pub mod sheet;
pub mod spread;
pub mod uncertainty;
pub mod values;
mod whole;

pub use whole::analyse;
