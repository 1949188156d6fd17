// Which closings are covered by which states.
ghost use Rattle.pairs.specs.Pairs.{kept_pairs};
ghost use Rattle.closings.specs.Tables.{Tabulates, CoveredBy};

use pairs::PairTable;

// By state, what it covers: whatever forms a pair of the set with something that the state has in the table `next`.
pub fn covered_by(next: &PairTable, pairs: &PairTable) -> PairTable
    ensures { Tabulates (CoveredBy (kept_pairs next.now) (kept_pairs pairs.now)) (kept_pairs result) }
{
    PairTable::from_fn(|state, x| next.rows_meet(state, pairs, x))
}
