// Opening a comparison, and changing one pair.
ghost use Rattle.std.specs.Prelude.{◌≡◌, if◌then◌else◌};
ghost use Rattle.vet.specs.Findings.{Finds};
ghost use Rattle.pairs.specs.Pairs.{no_pairs};
ghost use Rattle.comparison.specs.Settings.{setting_of, standing, Consistent, SameSetting};
ghost use Rattle.comparison.specs.Calls.{pair_refused, or_refused, change_result, after_add, after_strike};

use crate::Comparison;
use crate::refusal::PairRefusal;
use pairs::PairTable;
use plan::{Plan, Side};
use rules::Rule;
use vet::Vetted;

impl<A: Plan, B: Plan, R: Rule> Comparison<A, B, R> {
    // Opens a comparison of two vetted plans, sound or not, under a rule. No pair stands.
    pub fn open(first: Vetted<A>, second: Vetted<B>, rule: R) -> Comparison<A, B, R>
        requires first { Finds (A.meaning first.plan) first.finding }
        requires second { Finds (B.meaning second.plan) second.finding }
        ensures first { result.first ≡ first }
        ensures second { result.second ≡ second }
        ensures rule { result.rule ≡ rule }
        ensures none { standing result ≡ no_pairs }
        ensures consistent { Consistent (setting_of A.meaning B.meaning R.says result) (standing result) }
    {
        let pairs = PairTable::empty();
        Comparison {
            first,
            second,
            rule,
            pairs,
        }
    }

    // May this pair stand? If not, why not.
    pub(crate) fn check_pair(&self, s: usize, t: usize) -> Result<(), PairRefusal>
        ensures { result ≡ or_refused (pair_refused (setting_of A.meaning B.meaning R.says self.now) s t) tt }
    {
        let (first, second) = (self.first.plan(), self.second.plan());
        if s >= first.states() {
            Err(PairRefusal::NoState(Side::First))
        } else if t >= second.states() {
            Err(PairRefusal::NoState(Side::Second))
        } else if !first.marked(s) {
            Err(PairRefusal::Unmarked(Side::First))
        } else if !second.marked(t) {
            Err(PairRefusal::Unmarked(Side::Second))
        } else {
            Ok(())
        }
    }

    // Says whether a pair stands from now on. Gives whether it stood before.
    fn set(&mut self, s: usize, t: usize, stands: bool) -> Result<bool, PairRefusal>
        requires { Consistent (setting_of A.meaning B.meaning R.says self.old) (standing self.old) }
        ensures answer { result ≡ change_result (setting_of A.meaning B.meaning R.says self.old) (standing self.old) s t }
        ensures pairs { standing self.new ≡ (if stands then after_add (setting_of A.meaning B.meaning R.says self.old) (standing self.old) s t else after_strike (setting_of A.meaning B.meaning R.says self.old) (standing self.old) s t) }
        ensures same { SameSetting self.old self.new }
        ensures consistent { Consistent (setting_of A.meaning B.meaning R.says self.new) (standing self.new) }
    {
        self.check_pair(s, t)?;
        let stood = self.pairs.stands(s, t);
        if stands {
            self.pairs.put(s, t);
        } else {
            self.pairs.strike(s, t);
        }
        Ok(stood)
    }

    // Puts a pair in. Says whether it stood before.
    pub fn add(&mut self, s: usize, t: usize) -> Result<bool, PairRefusal>
        requires { Consistent (setting_of A.meaning B.meaning R.says self.old) (standing self.old) }
        ensures answer { result ≡ change_result (setting_of A.meaning B.meaning R.says self.old) (standing self.old) s t }
        ensures pairs { standing self.new ≡ after_add (setting_of A.meaning B.meaning R.says self.old) (standing self.old) s t }
        ensures same { SameSetting self.old self.new }
        ensures consistent { Consistent (setting_of A.meaning B.meaning R.says self.new) (standing self.new) }
    {
        self.set(s, t, true)
    }

    // Takes a pair out. Says whether it stood before.
    pub fn strike(&mut self, s: usize, t: usize) -> Result<bool, PairRefusal>
        requires { Consistent (setting_of A.meaning B.meaning R.says self.old) (standing self.old) }
        ensures answer { result ≡ change_result (setting_of A.meaning B.meaning R.says self.old) (standing self.old) s t }
        ensures pairs { standing self.new ≡ after_strike (setting_of A.meaning B.meaning R.says self.old) (standing self.old) s t }
        ensures same { SameSetting self.old self.new }
        ensures consistent { Consistent (setting_of A.meaning B.meaning R.says self.new) (standing self.new) }
    {
        self.set(s, t, false)
    }
}
