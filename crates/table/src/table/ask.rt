// A table answers the seven questions of a plan.
ghost use Rattle.std.specs.Prelude.{◌≡◌, slice_index_or};
ghost use Rattle.table.specs.Meaning.{table_meaning};
ghost use Rattle.table.specs.Rows.{blank};
ghost use Rattle.plan.proofs.Laws.{lawful_from};

use super::Table;
use crate::row::{Row, Steps};
use plan::Plan;

impl Table {
    // The row of this state, blank where there is no such state.
    fn row(&self, state: usize) -> Row
        ensures { result ≡ slice_index_or self.now.rows state blank }
    {
        self.rows.get(state).copied().unwrap_or(Row::BLANK)
    }
}

impl Plan for Table {
    ghost meaning = { table_meaning };

    ghost lawful = { λ x. lawful_from _ x.lawful };

    fn states(&self) -> usize {
        self.states
    }

    fn start(&self) -> usize {
        self.start
    }

    fn channels(&self) -> usize {
        1
    }

    fn marked(&self, state: usize) -> bool {
        self.row(state).marked
    }

    fn code(&self, state: usize, channel: usize) -> u32 {
        if channel == 0 {
            self.row(state).code
        } else {
            0
        }
    }

    fn step_count(&self, state: usize) -> usize {
        match self.row(state).steps {
            Steps::Halt => 0,
            Steps::One(_) => 1,
            Steps::Two(_, _) => 2,
        }
    }

    fn step(&self, state: usize, i: usize) -> usize {
        match (self.row(state).steps, i) {
            (Steps::One(first), 0) => usize::from(first),
            (Steps::Two(first, _), 0) => usize::from(first),
            (Steps::Two(_, second), 1) => usize::from(second),
            _ => 0,
        }
    }
}
