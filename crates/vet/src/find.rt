// Finds the first fault of a plan.
ghost use Rattle.std.specs.Prelude.{ℕ, ◌<◌, Decides, MatchOption};
ghost use Rattle.plan.specs.Runs.{Leads, Between, Stuck, Circling};
ghost use Rattle.walk.specs.Walking.{MarkedLeadInto};
ghost use Rattle.vet.specs.Findings.{Finds, LowestSuch};

use crate::finding::Finding;
use plan::{MOST_STATES, Plan};
use walk::{has, led_from, led_from_marked};

// Can this state be reached from a marked one, and is it unmarked? `led` has the states that marked ones lead to. (Tried: the two in
// a struct whose ghost field says so. A ghost field is a fact with one proof at most; this one names a marked state for each, and cut
// down to 'there is one' it cannot be given out again where `Between` names it.)
fn is_between<P: Plan>(plan: &P, led: &[bool; MOST_STATES], state: usize) -> bool
    requires { MarkedLeadInto (P.meaning plan.now) led.now }
    ensures { Decides result (Between (P.meaning plan.now) state) }
{
    has(led, state) && !plan.marked(state)
}

// Does this state lead back to itself?
fn leads_back<P: Plan>(plan: &P, state: usize) -> bool
    ensures { Decides result (Leads (P.meaning plan.now) state state) }
{
    has(&led_from(plan, state), state)
}

// The lowest unmarked state that can be reached from a marked one and has no step.
fn lowest_stuck<P: Plan>(plan: &P, led: &[bool; MOST_STATES]) -> Option<usize>
    requires { MarkedLeadInto (P.meaning plan.now) led.now }
    ensures { MatchOption result ((u : ℕ) → Stuck (P.meaning plan.now) u → ⊥) (LowestSuch (Stuck (P.meaning plan.now))) }
{
    (0..plan.states()).find(|&state| is_between(plan, led, state) && plan.step_count(state) == 0)
}

// The lowest unmarked state that can be reached from a marked one and lies on a cycle of unmarked states.
fn lowest_circling<P: Plan>(plan: &P, led: &[bool; MOST_STATES]) -> Option<usize>
    requires { MarkedLeadInto (P.meaning plan.now) led.now }
    ensures { MatchOption result ((u : ℕ) → Circling (P.meaning plan.now) u → ⊥) (LowestSuch (Circling (P.meaning plan.now))) }
{
    (0..plan.states()).find(|&state| is_between(plan, led, state) && leads_back(plan, state))
}

// Puts the three questions in their order.
pub(crate) fn find_fault<P: Plan>(plan: &P) -> Finding
    ensures { Finds (P.meaning plan.now) result }
{
    let start = plan.start();
    if !plan.marked(start) {
        return Finding::StartUnmarked(start);
    }
    let led = led_from_marked(plan);
    if let Some(state) = lowest_stuck(plan, &led) {
        return Finding::StuckAt(state);
    }
    if let Some(state) = lowest_circling(plan, &led) {
        return Finding::CirclingAt(state);
    }
    Finding::SoundPlan
}
