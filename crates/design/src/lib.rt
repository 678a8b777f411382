// A design as a chemist types it: its sizes, its list of initial blocks, and its development. The face: why a block list is refused, and the words of
// all blocks, or of one initial block, laid into lent room. Neighbours ask besides whether a head keeps to the sizes, for its v, whether a byte stands
// among some, and how often each difference arises.
#![tactic(auto)]

mod addition;
mod blocks;
mod development;
mod differences;
mod sizes;

pub use blocks::{pairs_refusal, stands_among};
pub use development::{develop, develop_initial};
pub use differences::count_differences;
pub use sizes::{objects, sized};
