// The largest set of pairs that fits two plans, found in rounds.
#![tactic(auto)]

mod finding;
mod first;
mod nofit;
mod round;

pub use finding::find_largest;
pub use nofit::NoFit;
