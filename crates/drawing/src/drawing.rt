// A drawing as it is kept.
ghost use Rattle.plan.specs.Model.{Lawful};
ghost use Rattle.drawing.specs.Stored.{stored_plan, SpansFit};

use crate::state::State;
use crate::steps::StepTable;
use plan::MOST_STATES;

mod ask;
mod open;

// Arrays of fixed length, for the most that a drawing has, since by a rule of the project nothing allocates here.
#[derive(Drop)]
pub struct Drawing {
    states: usize,
    start: usize,
    channels: usize,
    // One for each state, and blank ones behind them.
    rows: [State; MOST_STATES],
    steps: StepTable,
    ghost lawful: { ∥ Lawful (stored_plan states start channels rows steps) ∥₁ },
    ghost spans_fit: { SpansFit steps },
}
