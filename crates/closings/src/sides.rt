// The closings of two plans beside one another.
ghost use Rattle.pairs.specs.Pairs.{kept_pairs};
ghost use Rattle.closings.specs.Tables.{Tabulates, Follows, CoveredBy, exchanged};

use crate::{covered_by, next_closings};
use pairs::PairTable;
use plan::Plan;

// A table of closings of each plan.
#[derive(Drop)]
pub struct Closings {
    pub first: PairTable,
    pub second: PairTable,
}

impl Closings {
    // By closing of either plan, its next closings.
    pub fn next<A: Plan, B: Plan>(first: &A, second: &B) -> Closings
        ensures first { Tabulates (Follows (A.meaning first.now)) (kept_pairs result.first) }
        ensures second { Tabulates (Follows (B.meaning second.now)) (kept_pairs result.second) }
    {
        Closings {
            first: next_closings(first),
            second: next_closings(second),
        }
    }

    // Where these are next closings: by state of the other plan, which closings of a plan it covers by a set of pairs.
    pub fn covered(&self, pairs: &PairTable) -> Closings
        ensures first { Tabulates (CoveredBy (kept_pairs self.now.second) (kept_pairs pairs.now)) (kept_pairs result.first) }
        ensures second { Tabulates (CoveredBy (kept_pairs self.now.first) (exchanged (kept_pairs pairs.now))) (kept_pairs result.second) }
    {
        Closings {
            first: covered_by(&self.second, pairs),
            second: covered_by(&self.first, &pairs.transposed()),
        }
    }
}
