// Two plans under a rule: which of their states go together.
ghost use Rattle.rules.specs.Rules.{LowestRefused};

use crate::Rule;
use plan::Plan;

// What is compared: two plans of any kinds, and the rule that says which of their codes go together.
#[derive(Drop)]
pub struct Compared<'a, A, B, R> {
    pub first: &'a A,
    pub second: &'a B,
    pub rule: &'a R,
}

impl<'a, A: Plan, B: Plan, R: Rule> Compared<'a, A, B, R> {
    // The lowest channel of the first plan on which the rule says no to the codes of the two states. None where it says yes
    // on each.
    pub fn lowest_refused(&self, s: usize, t: usize) -> Option<usize>
        ensures { LowestRefused (A.meaning self.now.first.now) (B.meaning self.now.second.now) (R.says self.now.rule.now) s t result }
    {
        (0..self.first.channels()).find(|&channel| {
            let (first, second) = (self.first.code(s, channel), self.second.code(t, channel));
            !self.rule.accepts(channel, first, second)
        })
    }
}
