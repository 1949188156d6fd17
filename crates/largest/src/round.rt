// One round: strikes the pairs whose next closings the set does not cover.
ghost use Rattle.std.specs.Prelude.{Decides};
ghost use Rattle.pairs.specs.Pairs.{kept_pairs};
ghost use Rattle.largest.specs.Sweeping.{CoveredIn, MatchedBy, RowSwept, Swept, Tells};

use closings::Closings;
use pairs::PairTable;
use plan::MOST_STATES;

// For this pair, is every next closing of either state covered by the other state?
fn is_covered(next: &Closings, covered: &Closings, s: usize, t: usize) -> bool
    ensures { Decides result (CoveredIn next.now covered.now s t) }
{
    next.first.row_within(s, &covered.first, t) && next.second.row_within(t, &covered.second, s)
}

// Strikes the pairs of this first state that are not covered. Tells whether there were any.
fn strike_row(next: &Closings, covered: &Closings, s: usize, pairs: &mut PairTable) -> bool
    ensures sweeps { RowSwept (CoveredIn next.now covered.now) s 128 (kept_pairs pairs.old) (kept_pairs pairs.new) }
    ensures tells { Tells result (kept_pairs pairs.old) (kept_pairs pairs.new) }
{
    // In place, and not a new table for each round: that would have to be counted to tell whether anything was struck.
    let mut struck = false;
    for t in 0..MOST_STATES {
        if pairs.stands(s, t) && !is_covered(next, covered, s, t) {
            pairs.strike(s, t);
            struck = true;
        }
    }
    struck
}

// Strikes every pair that the set, as it was before the round, does not cover. Tells whether there were any.
pub(crate) fn next_round(next: &Closings, pairs: &mut PairTable) -> bool
    ensures sweeps { Swept (MatchedBy next.now (kept_pairs pairs.old)) (kept_pairs pairs.old) (kept_pairs pairs.new) }
    ensures tells { Tells result (kept_pairs pairs.old) (kept_pairs pairs.new) }
{
    let covered = next.covered(pairs);
    // Not `any`, which stops at the first yes, and not a new table, which would have to be counted.
    let mut struck = false;
    for s in 0..MOST_STATES {
        struck |= strike_row(next, &covered, s, pairs);
    }
    struck
}
