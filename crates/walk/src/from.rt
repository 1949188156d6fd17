// Walks from one state and from all marked ones, with work space of their own.
ghost use Rattle.std.specs.Prelude.{◌≡◌, ℕ, false, slice_index_or};
ghost use Rattle.walk.specs.Walking.{LeadsInto, MarkedLeadInto, OnlyOne, Walked};

use crate::walk;
use plan::{MOST_STATES, Plan};
use std::array;

// The set of this one state.
fn only(state: usize) -> [bool; MOST_STATES]
    ensures { OnlyOne state result }
{
    array::from_fn(|s| s == state)
}

// The set of the marked states.
fn marks<P: Plan>(plan: &P) -> [bool; MOST_STATES]
    ensures { (s : ℕ) → slice_index_or result s false ≡ (P.meaning plan.now).mark s }
{
    array::from_fn(|s| plan.marked(s))
}

// The states that the first ones lead to. The arrays have room for every plan, so the walk is never refused.
fn led_from_all<P: Plan>(plan: &P, first: &[bool; MOST_STATES]) -> [bool; MOST_STATES]
    ensures { Walked (P.meaning plan.now) first.now result }
{
    let mut reached = [false; MOST_STATES];
    let mut queued = [false; MOST_STATES];
    let mut queue = [0; MOST_STATES];
    let _ = walk(plan, first, &mut reached, &mut queued, &mut queue);
    reached
}

// The states that this one leads to, by one or more steps with only unmarked states between.
pub fn led_from<P: Plan>(plan: &P, state: usize) -> [bool; MOST_STATES]
    ensures { LeadsInto (P.meaning plan.now) state result }
{
    led_from_all(plan, &only(state))
}

// The states that some marked state leads to.
pub fn led_from_marked<P: Plan>(plan: &P) -> [bool; MOST_STATES]
    ensures { MarkedLeadInto (P.meaning plan.now) result }
{
    led_from_all(plan, &marks(plan))
}
