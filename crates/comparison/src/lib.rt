// A comparison of two vetted plans.
#![tactic(auto)]

use pairs::PairTable;
use vet::Vetted;

mod calls;
mod change;
mod load;
mod refusal;

pub use calls::Call;
pub use refusal::{LoadRefusal, PairRefusal};

// Two vetted plans, a rule, and the pairs of states that stand. The fields are closed: the plans, their findings and the
// rule stay as the comparison took them. By a rule of the project it is no invariant of this type that the findings are
// true and only marked pairs stand: each call promises it, and the next one asks for it. That a call leaves plans, findings
// and rule as they were speaks of two comparisons, the old and the new, so no type can hold it.
#[derive(Drop)]
pub struct Comparison<A, B, R> {
    first: Vetted<A>,
    second: Vetted<B>,
    rule: R,
    pairs: PairTable,
}
