// Finding the largest fitting set: the questions in their order.
ghost use Rattle.std.specs.Prelude.{◌≡◌};
ghost use Rattle.vet.specs.Findings.{Finds};
ghost use Rattle.fitting.specs.Judging.{OnlyOne};
ghost use Rattle.largest.specs.Rounds.{NoneFitsMeans};
ghost use Rattle.largest.specs.Finding.{FitAsked, FindsLargest, kept_result};

use crate::first::compatible_pairs;
use crate::nofit::NoFit;
use crate::round::next_round;
use closings::Closings;
use fitting::compare_plans;
use pairs::PairTable;
use plan::Plan;
use rules::{Compared, Rule};
use vet::Vetted;

// Goes through the rounds until one changes nothing: then what is left is covered, and no pair of a fitting set was ever struck.
fn refine<A: Plan, B: Plan, R: Rule>(compared: &Compared<'_, A, B, R>) -> Result<PairTable, NoFit>
    requires { (A.meaning compared.now.first.now).channels ≡ (B.meaning compared.now.second.now).channels }
    ensures { FitAsked (A.meaning compared.now.first.now) (B.meaning compared.now.second.now) (R.says compared.now.rule.now) (kept_result result) }
{
    let next = Closings::next(compared.first, compared.second);
    let mut pairs = compatible_pairs(compared);
    while next_round(&next, &mut pairs) {}
    if pairs.stands(compared.first.start(), compared.second.start()) {
        Ok(pairs)
    } else {
        Err(NoFit::NoneFits)
    }
}

// Finds the largest set of pairs that fits the two plans, or tells that they are not compared or that no set fits.
pub fn find_largest<A: Plan, B: Plan, R: Rule>(
    first: &Vetted<A>,
    second: &Vetted<B>,
    rule: &R,
) -> Result<PairTable, NoFit>
    requires first_found { Finds (A.meaning first.now.plan) first.now.finding }
    requires second_found { Finds (B.meaning second.now.plan) second.now.finding }
    ensures finds { FindsLargest (A.meaning first.now.plan) (B.meaning second.now.plan) (R.says rule.now) (kept_result result) }
    ensures only { OnlyOne (FindsLargest (A.meaning first.now.plan) (B.meaning second.now.plan) (R.says rule.now)) }
    ensures shallow { NoneFitsMeans (A.meaning first.now.plan) (B.meaning second.now.plan) (R.says rule.now) }
{
    // As `judge` begins: the one question that both ask of vetted plans, and then the plans without their findings. A function for the
    // two steps would have to promise of the struct what its three fields show.
    compare_plans(first, second)?;
    let compared = Compared {
        first: first.plan(),
        second: second.plan(),
        rule,
    };
    refine(&compared)
}
