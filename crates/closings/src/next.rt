// The next closings of a plan, walked once for each closing.
ghost use Rattle.std.specs.Prelude.{ℕ, false, Decides, slice_index_or};
ghost use Rattle.pairs.specs.Pairs.{kept_pairs};
ghost use Rattle.closings.specs.Tables.{Tabulates, Follows};

use pairs::PairTable;
use plan::{MOST_STATES, Plan};
use std::array;
use walk::{has, led_from};

// The next closings of this state, if it is a closing; none otherwise.
fn closings_after<P: Plan>(plan: &P, state: usize) -> [bool; MOST_STATES]
    ensures { (t : ℕ) → Decides (slice_index_or result t false) (Follows (P.meaning plan.now) state t) }
{
    if !plan.marked(state) {
        return [false; MOST_STATES];
    }
    let led = led_from(plan, state);
    array::from_fn(|t| has(&led, t) & plan.marked(t))
}

// The pairs of each closing and its next closings.
pub fn next_closings<P: Plan>(plan: &P) -> PairTable
    ensures { Tabulates (Follows (P.meaning plan.now)) (kept_pairs result) }
{
    PairTable::from_rows(
        |state| -> [bool; MOST_STATES]
            ensures { (t : ℕ) → Decides (slice_index_or result t false) (Follows (P.meaning plan.entry.now) state t) }
        { closings_after(plan, state) },
    )
}
