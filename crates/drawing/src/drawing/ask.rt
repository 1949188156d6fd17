// A drawing answers the seven questions of a plan.
ghost use Rattle.std.specs.Prelude.{◌≡◌, slice_index_or};
ghost use Rattle.drawing.specs.Meaning.{drawing_meaning};
ghost use Rattle.drawing.specs.Stored.{blank};
ghost use Rattle.plan.proofs.Laws.{lawful_from};

use super::Drawing;
use crate::state::State;
use plan::Plan;

impl Drawing {
    // The row of this state, blank where there is no such state.
    fn row(&self, state: usize) -> State
        ensures { result ≡ slice_index_or self.now.rows state blank }
    {
        self.rows.get(state).copied().unwrap_or(State::BLANK)
    }
}

impl Plan for Drawing {
    ghost meaning = { drawing_meaning };

    ghost lawful = { λ x. lawful_from _ x.lawful };

    fn states(&self) -> usize {
        self.states
    }

    fn start(&self) -> usize {
        self.start
    }

    fn channels(&self) -> usize {
        self.channels
    }

    fn marked(&self, state: usize) -> bool {
        self.row(state).marked
    }

    fn code(&self, state: usize, channel: usize) -> u32 {
        self.row(state).codes.get(channel).copied().unwrap_or(0)
    }

    fn step_count(&self, state: usize) -> usize {
        self.steps.count(state)
    }

    fn step(&self, state: usize, i: usize) -> usize {
        self.steps.step(state, i)
    }
}
