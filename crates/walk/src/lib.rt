// The walk over a plan of any kind: which states are reached from given first states by one or more steps with only
// unmarked states between. Each state is expanded once, so a walk is linear in the plan's steps.
#![tactic(auto)]

ghost use Rattle.std.specs.Prelude.{◌≡◌, false, slice_index_or};

mod from;
mod work;

pub use from::{led_from, led_from_marked};
pub use work::walk;

// Is this state in the set? A set of states is kept as a slice of yes and no, by state.
pub fn has(states: &[bool], state: usize) -> bool
    ensures { result ≡ slice_index_or states.now state false }
{
    states.get(state).copied().unwrap_or(false)
}
