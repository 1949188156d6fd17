// Asking and making the tables of a judgement.
ghost use Rattle.std.specs.Prelude.{◌≡◌};
ghost use Rattle.pairs.specs.Pairs.{kept_pairs};
ghost use Rattle.fitting.specs.Covering.{uncovered_in, Covers};

use super::Covering;
use closings::Closings;
use pairs::PairTable;
use plan::{Plan, Side};
use rules::{Compared, Rule};

impl Covering {
    // The tables of two plans and a set of pairs.
    pub(crate) fn of<A: Plan, B: Plan, R: Rule>(
        compared: &Compared<'_, A, B, R>,
        pairs: &PairTable,
    ) -> Covering
        ensures { Covers (A.meaning compared.now.first.now) (B.meaning compared.now.second.now) (kept_pairs pairs.now) result }
    {
        let next = Closings::next(compared.first, compared.second);
        let covered = next.covered(pairs);
        Covering { next, covered }
    }

    // For this pair, is this a next closing of the side's state that is not covered?
    pub(crate) fn is_uncovered(&self, side: Side, s: usize, t: usize, closing: usize) -> bool
        ensures { result ≡ uncovered_in self.now side s t closing }
    {
        match side {
            Side::First => {
                self.next.first.stands(s, closing) & !self.covered.first.stands(t, closing)
            }
            Side::Second => {
                self.next.second.stands(t, closing) & !self.covered.second.stands(s, closing)
            }
        }
    }
}
