// Lists of calls on a comparison.
ghost use Rattle.std.specs.Prelude.{MatchResult};
ghost use Rattle.comparison.specs.Settings.{setting_of, standing, Consistent, SameSetting};
ghost use Rattle.comparison.specs.Histories.{Does, Ran, NotRun, OneHistory};

use crate::Comparison;
use plan::{Answer, Outcome, Plan, TooShort};
use rules::Rule;

// One call. A file is lent. Calls are data and no closures, since histories speak of them.
#[derive(Clone, Copy)]
pub enum Call<'a> {
    Add(usize, usize),
    Strike(usize, usize),
    Load(&'a [u8]),
}

impl<A: Plan, B: Plan, R: Rule> Comparison<A, B, R> {
    // Makes one call. Gives its five numbers.
    pub fn call(&mut self, call: &Call<'_>) -> Answer
        requires { Consistent (setting_of A.meaning B.meaning R.says self.old) (standing self.old) }
        ensures does { Does (setting_of A.meaning B.meaning R.says self.old) (standing self.old) call.now result (standing self.new) }
        ensures same { SameSetting self.old self.new }
        ensures consistent { Consistent (setting_of A.meaning B.meaning R.says self.new) (standing self.new) }
    {
        match call {
            Call::Add(s, t) => self.add(*s, *t).answer(),
            Call::Strike(s, t) => self.strike(*s, *t).answer(),
            Call::Load(file) => self.load(file).answer(),
        }
    }

    // Makes the calls of a list one after the other, each on what the one before it left, and writes their answers into the
    // lent slice. Where that is shorter than the list nothing is run. Nothing is allocated, so nothing else can fail.
    pub fn run(&mut self, calls: &[Call<'_>], answers: &mut [Answer]) -> Result<(), TooShort>
        requires { Consistent (setting_of A.meaning B.meaning R.says self.old) (standing self.old) }
        ensures ran { MatchResult result (λ _. Ran (setting_of A.meaning B.meaning R.says self.old) (standing self.old) calls.now answers.old answers.new (standing self.new)) (λ e. NotRun (standing self.old) calls.now answers.old answers.new (standing self.new) e.needed) }
        ensures only { OneHistory (setting_of A.meaning B.meaning R.says self.old) }
        ensures same { SameSetting self.old self.new }
        ensures consistent { Consistent (setting_of A.meaning B.meaning R.says self.new) (standing self.new) }
    {
        if answers.len() < calls.len() {
            return Err(TooShort {
                needed: calls.len(),
            });
        }
        // By index: where the places are lent out by `zip`, the proof does not know afterwards what was written into them.
        for (i, call) in calls.iter().enumerate() {
            answers[i] = self.call(call);
        }
        Ok(())
    }
}
