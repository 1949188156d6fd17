// Judging a set of pairs: the questions in their order.
ghost use Rattle.std.specs.Prelude.{◌≡◌, true, is_ok, Err, Decides, MatchResult};
ghost use Rattle.plan.specs.Runs.{Sound};
ghost use Rattle.vet.specs.Findings.{Finds};
ghost use Rattle.pairs.specs.Pairs.{kept_pairs};
ghost use Rattle.fitting.specs.Bisimilarity.{OnlyMarked, AllAcceptable, AllCovered, Agree};
ghost use Rattle.fitting.specs.Judging.{SideUnsound, Comparable, PlansRefused, NamesUnacceptable, NamesUncovered, PairsAsked, Judges, OnlyOne, Accepted};
ghost use Rattle.fitting.specs.Covering.{Covers};

use crate::covering::Covering;
use crate::misfit::{Incomparable, Misfit};
use pairs::PairTable;
use plan::{MOST_STATES, Plan, Side};
use rules::{Compared, Rule};
use vet::{Finding, Vetted};

// Is the plan of this side sound?
fn require_sound<P: Plan>(side: Side, plan: &Vetted<P>) -> Result<(), Incomparable>
    requires { Finds (P.meaning plan.now.plan) plan.now.finding }
    ensures { MatchResult result (λ _. Sound (P.meaning plan.now.plan)) (SideUnsound (P.meaning plan.now.plan) side) }
{
    match plan.finding() {
        Finding::SoundPlan => Ok(()),
        fault => Err(Incomparable::Unsound(side, fault)),
    }
}

// Is each plan sound, and have both equally many channels?
pub fn compare_plans<A: Plan, B: Plan>(
    first: &Vetted<A>,
    second: &Vetted<B>,
) -> Result<(), Incomparable>
    requires first_found { Finds (A.meaning first.now.plan) first.now.finding }
    requires second_found { Finds (B.meaning second.now.plan) second.now.finding }
    ensures { MatchResult result (λ _. Comparable (A.meaning first.now.plan) (B.meaning second.now.plan)) (PlansRefused (A.meaning first.now.plan) (B.meaning second.now.plan)) }
{
    require_sound(Side::First, first)?;
    require_sound(Side::Second, second)?;
    let (p, q) = (first.plan().channels(), second.plan().channels());
    if p != q {
        return Err(Incomparable::Channels(p, q));
    }
    Ok(())
}

// Is every pair acceptable? The first that is not is named.
fn check_acceptable<A: Plan, B: Plan, R: Rule>(
    compared: &Compared<'_, A, B, R>,
    pairs: &PairTable,
) -> Result<(), Misfit>
    requires as_many { (A.meaning compared.now.first.now).channels ≡ (B.meaning compared.now.second.now).channels }
    requires only_marked { OnlyMarked (A.meaning compared.now.first.now) (B.meaning compared.now.second.now) (kept_pairs pairs.now) }
    ensures { MatchResult result (λ _. AllAcceptable (A.meaning compared.now.first.now) (B.meaning compared.now.second.now) (R.says compared.now.rule.now) (kept_pairs pairs.now)) (λ m. NamesUnacceptable (A.meaning compared.now.first.now) (B.meaning compared.now.second.now) (R.says compared.now.rule.now) (kept_pairs pairs.now) (Err m)) }
{
    // Nested loops, as below: the pair that is refused is named by its two states.
    for s in 0..compared.first.states() {
        for t in 0..compared.second.states() {
            if pairs.stands(s, t) {
                if let Some(channel) = compared.lowest_refused(s, t) {
                    return Err(Misfit::Unacceptable {
                        first: s,
                        second: t,
                        channel,
                    });
                }
            }
        }
    }
    Ok(())
}

// Is every next closing covered? The first that is not is named: pairs in ascending order, the first side before the second, the
// lowest closing first.
fn check_covered<A: Plan, B: Plan, R: Rule>(
    compared: &Compared<'_, A, B, R>,
    pairs: &PairTable,
    covering: &Covering,
) -> Result<(), Misfit>
    requires covers { Covers (A.meaning compared.now.first.now) (B.meaning compared.now.second.now) (kept_pairs pairs.now) covering.now }
    requires only_marked { OnlyMarked (A.meaning compared.now.first.now) (B.meaning compared.now.second.now) (kept_pairs pairs.now) }
    ensures { MatchResult result (λ _. AllCovered (A.meaning compared.now.first.now) (B.meaning compared.now.second.now) (kept_pairs pairs.now)) (λ m. NamesUncovered (A.meaning compared.now.first.now) (B.meaning compared.now.second.now) (kept_pairs pairs.now) (Err m)) }
{
    // Nested loops that are left by a label, a form that the users of this project ask for.
    'pairs: {
        for s in 0..compared.first.states() {
            for t in 0..compared.second.states() {
                if pairs.stands(s, t) {
                    for side in [Side::First, Side::Second] {
                        for closing in 0..MOST_STATES {
                            if covering.is_uncovered(side, s, t, closing) {
                                break 'pairs Err(Misfit::Uncovered {
                                    side,
                                    first: s,
                                    second: t,
                                    closing,
                                });
                            }
                        }
                    }
                }
            }
        }
        Ok(())
    }
}

// Puts the questions to the pairs. (That both plans have equally many channels is asked of private functions alone, here and where a
// largest set is found. A type that holds it would wrap `Compared`, which is made without it too, and each function would reach its
// plans through two structs. That only marked pairs are in the set speaks of plans and pairs at once; a type of the three would be a
// comparison again, which holds them.)
fn judge_pairs<A: Plan, B: Plan, R: Rule>(
    compared: &Compared<'_, A, B, R>,
    pairs: &PairTable,
) -> Result<usize, Misfit>
    requires as_many { (A.meaning compared.now.first.now).channels ≡ (B.meaning compared.now.second.now).channels }
    requires only_marked { OnlyMarked (A.meaning compared.now.first.now) (B.meaning compared.now.second.now) (kept_pairs pairs.now) }
    ensures { PairsAsked (A.meaning compared.now.first.now) (B.meaning compared.now.second.now) (R.says compared.now.rule.now) (kept_pairs pairs.now) result }
{
    if !pairs.stands(compared.first.start(), compared.second.start()) {
        return Err(Misfit::StartsApart);
    }
    check_acceptable(compared, pairs)?;
    check_covered(compared, pairs, &Covering::of(compared, pairs))?;
    Ok(pairs.count())
}

// Judges whether a set of pairs fits. Tells how many pairs there are, or the first question that is answered no.
pub fn judge<A: Plan, B: Plan, R: Rule>(
    first: &Vetted<A>,
    second: &Vetted<B>,
    rule: &R,
    pairs: &PairTable,
) -> Result<usize, Misfit>
    requires first_found { Finds (A.meaning first.now.plan) first.now.finding }
    requires second_found { Finds (B.meaning second.now.plan) second.now.finding }
    requires only_marked { OnlyMarked (A.meaning first.now.plan) (B.meaning second.now.plan) (kept_pairs pairs.now) }
    ensures judges { Judges (A.meaning first.now.plan) (B.meaning second.now.plan) (R.says rule.now) (kept_pairs pairs.now) result }
    ensures only { OnlyOne (Judges (A.meaning first.now.plan) (B.meaning second.now.plan) (R.says rule.now) (kept_pairs pairs.now)) }
    ensures accepts { Decides (is_ok result) (Accepted (A.meaning first.now.plan) (B.meaning second.now.plan) (R.says rule.now) (kept_pairs pairs.now)) }
    ensures agrees { is_ok result ≡ true → Agree (A.meaning first.now.plan) (B.meaning second.now.plan) (R.says rule.now) }
{
    compare_plans(first, second)?;
    let compared = Compared {
        first: first.plan(),
        second: second.plan(),
        rule,
    };
    judge_pairs(&compared, pairs)
}
