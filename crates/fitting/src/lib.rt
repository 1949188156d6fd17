// When a set of pairs of states fits two plans.
#![tactic(auto)]

mod covering;
mod judging;
pub mod misfit;

pub use judging::{compare_plans, judge};
pub use misfit::{Incomparable, Misfit};
