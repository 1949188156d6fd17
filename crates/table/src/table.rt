// A table as it is kept: its rows, one for each state, and blank rows behind them.
ghost use Rattle.plan.specs.Model.{Lawful};
ghost use Rattle.table.specs.Rows.{stored_plan};

use crate::row::Row;
use plan::MOST_STATES;

mod ask;
mod open;

// An array of fixed length, for the most that a table has, since by a rule of the project nothing allocates here.
#[derive(Drop)]
pub struct Table {
    states: usize,
    start: usize,
    rows: [Row; MOST_STATES],
    ghost lawful: { ∥ Lawful (stored_plan states start rows) ∥₁ },
}
