// Claims held against figures. The face: what a sheet's claims answer against hundredths and a spread, for any lists; and an answer under a
// verdict.
#![tactic(auto)]

mod comparing;

pub use comparing::{compare, under};
