// Findings, refusals and what came of a call, told by five numbers.
ghost use Rattle.std.specs.Prelude.{◌≡◌};
ghost use Rattle.plan.specs.declared.answer.Answer.{Answer};
ghost use Rattle.plan.specs.Answers.{too_short_numbers, counted_numbers, changed_numbers, opening_numbers};

use crate::Plan;
use crate::answer::{Answer, TooShort};

// What is told by five numbers: what vetting finds, a refusal, and what came of a call. `numbers` says which they are.
pub trait Outcome {
    ghost numbers: { Self → Answer };

    // The five numbers.
    fn answer(&self) -> Answer
        ensures { result ≡ numbers self.now };
}

impl Outcome for TooShort {
    ghost numbers = { too_short_numbers };

    fn answer(&self) -> Answer {
        Answer::refusal(22, 0, self.needed, 0)
    }
}

// A call that tells how many: the count in p, or the refusal's numbers.
impl<E: Outcome> Outcome for Result<usize, E> {
    ghost numbers = { counted_numbers E.numbers };

    fn answer(&self) -> Answer {
        match self {
            Ok(count) => Answer::success(*count, 0),
            Err(refusal) => refusal.answer(),
        }
    }
}

// A call that tells whether something stood before: 1 or 0 in p, or the refusal's numbers.
impl<E: Outcome> Outcome for Result<bool, E> {
    ghost numbers = { changed_numbers E.numbers };

    fn answer(&self) -> Answer {
        match self {
            Ok(stood) => Answer::success(usize::from(*stood), 0),
            Err(refusal) => refusal.answer(),
        }
    }
}

// The five numbers of opening a plan or joining two: the plan's states and channels in p and q, or the refusal's numbers.
pub fn opening_answer<P: Plan, E: Outcome>(opening: &Result<P, E>) -> Answer
    ensures { result ≡ opening_numbers P.meaning E.numbers opening.now }
{
    match opening {
        Ok(plan) => Answer::success(plan.states(), plan.channels()),
        Err(refusal) => refusal.answer(),
    }
}
