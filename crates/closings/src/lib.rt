// Next closings as tables of pairs, and which closings they cover.
#![tactic(auto)]

mod coverage;
mod next;
mod sides;

pub use coverage::covered_by;
pub use next::next_closings;
pub use sides::Closings;
