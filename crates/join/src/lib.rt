// Two plans side by side, again a plan.
#![tactic(auto)]

ghost use Rattle.std.specs.Prelude.{◌≡◌, IfOk, MatchResult};
ghost use Rattle.join.specs.Joining.{fits_join, SideBySide};
ghost use Rattle.join.specs.Meaning.{joined_meaning};
ghost use Rattle.join.specs.Answers.{join_answer, joining_numbers, refusal_numbers, back_numbers, limits_asked};

use plan::{Answer, MOST_CHANNELS, MOST_STATES, Outcome, Plan};

mod ask;

// Any two plans of any kinds, held by value. Two plans past the limits mean one marked state without steps or
// channels, so that whatever the parts are, this is a plan.
#[derive(Drop)]
pub struct Joined<A, B> {
    first: A,
    second: B,
}

// Why two plans are not joined, with the first's number and the second's.
#[derive(Clone, Copy, PartialEq, Eq, Debug)]
pub enum JoinRefusal {
    // The product of the states is above 128.
    States(usize, usize),
    // The sum of the channels is above 4.
    Channels(usize, usize),
}

// A refused join, with both plans as they were handed in.
#[derive(Drop)]
pub struct NotJoined<A, B> {
    pub refusal: JoinRefusal,
    pub first: A,
    pub second: B,
}

impl Outcome for JoinRefusal {
    ghost numbers = { refusal_numbers };

    fn answer(&self) -> Answer {
        match self {
            JoinRefusal::States(p, q) => Answer::refusal(8, 0, *p, *q),
            JoinRefusal::Channels(p, q) => Answer::refusal(9, 0, *p, *q),
        }
    }
}

impl<A, B> Outcome for NotJoined<A, B> {
    ghost numbers = { back_numbers };

    fn answer(&self) -> Answer {
        self.refusal.answer()
    }
}

// Do two plans keep the limits of a joined one? States before channels.
fn check_limits<A: Plan, B: Plan>(first: &A, second: &B) -> Result<(), JoinRefusal>
    ensures { result ≡ limits_asked (A.meaning first.now) (B.meaning second.now) }
{
    let states = first.states() * second.states();
    if states > MOST_STATES {
        return Err(JoinRefusal::States(first.states(), second.states()));
    }
    let channels = first.channels() + second.channels();
    if channels > MOST_CHANNELS {
        return Err(JoinRefusal::Channels(first.channels(), second.channels()));
    }
    Ok(())
}

impl<A: Plan, B: Plan> Joined<A, B> {
    // Sets two plans side by side, or hands both back as they were.
    pub fn join(first: A, second: B) -> Result<Joined<A, B>, NotJoined<A, B>>
        ensures numbers { joining_numbers (joined_meaning A.meaning B.meaning) result ≡ join_answer (A.meaning first) (B.meaning second) }
        ensures plans { MatchResult result (λ j. (j.first ≡ first) × (j.second ≡ second)) (λ e. (e.first ≡ first) × (e.second ≡ second)) }
        ensures meets { IfOk result (λ j. SideBySide (A.meaning first) (B.meaning second) (joined_meaning A.meaning B.meaning j)) }
    {
        if let Err(refusal) = check_limits(&first, &second) {
            return Err(NotJoined {
                refusal,
                first,
                second,
            });
        }
        Ok(Joined { first, second })
    }

    // Hands both plans back, as they were handed in.
    pub fn into_parts(self) -> (A, B)
        ensures first { result.0 ≡ self.first }
        ensures second { result.1 ≡ self.second }
    {
        (self.first, self.second)
    }

    // Do the two plans keep the limits of a joined one?
    fn fits(&self) -> bool
        ensures { result ≡ fits_join (A.meaning self.now.first) (B.meaning self.now.second) }
    {
        check_limits(&self.first, &self.second).is_ok()
    }
}
