// What the rounds begin with: all pairs of closings that the rule accepts.
ghost use Rattle.std.specs.Prelude.{◌≡◌, Decides};
ghost use Rattle.pairs.specs.Pairs.{kept_pairs};
ghost use Rattle.fitting.specs.Bisimilarity.{Compatible};
ghost use Rattle.largest.specs.Rounds.{Round};

use pairs::PairTable;
use plan::Plan;
use rules::{Compared, Rule};

// Are these two states closings that the rule accepts together?
fn is_compatible<A: Plan, B: Plan, R: Rule>(
    compared: &Compared<'_, A, B, R>,
    s: usize,
    t: usize,
) -> bool
    requires { (A.meaning compared.now.first.now).channels ≡ (B.meaning compared.now.second.now).channels }
    ensures { Decides result (Compatible (A.meaning compared.now.first.now) (B.meaning compared.now.second.now) (R.says compared.now.rule.now) s t) }
{
    compared.first.marked(s) && compared.second.marked(t) && compared.lowest_refused(s, t).is_none()
}

// All pairs of closings that the rule accepts.
pub(crate) fn compatible_pairs<A: Plan, B: Plan, R: Rule>(
    compared: &Compared<'_, A, B, R>,
) -> PairTable
    requires { (A.meaning compared.now.first.now).channels ≡ (B.meaning compared.now.second.now).channels }
    ensures { Round (A.meaning compared.now.first.now) (B.meaning compared.now.second.now) (R.says compared.now.rule.now) 0 (kept_pairs result) }
{
    PairTable::from_fn(
        |s, t| -> bool
            requires { (A.meaning compared.now.first.now).channels ≡ (B.meaning compared.now.second.now).channels }
            ensures { Decides result (Compatible (A.meaning compared.entry.now.first.now) (B.meaning compared.entry.now.second.now) (R.says compared.entry.now.rule.now) s t) }
        { is_compatible(compared, s, t) },
    )
}
