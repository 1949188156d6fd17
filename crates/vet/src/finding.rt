// What vetting a plan finds.
ghost use Rattle.vet.specs.Findings.{finding_numbers};

use plan::{Answer, Outcome};

// Not a Result with a type of faults: no call fails with one of these. A finding is kept beside its plan and printed, and
// its numbers are one match over the four cases here, where a Result would take two matches over two types.
#[derive(Clone, Copy, PartialEq, Eq, Debug)]
pub enum Finding {
    // The plan is sound.
    SoundPlan,
    // The start, which is this state, is not marked.
    StartUnmarked(usize),
    // This unmarked state can be reached from a marked one and has no step. No lower one is such.
    StuckAt(usize),
    // This unmarked state can be reached from a marked one and lies on a cycle of unmarked states. No lower one is such.
    CirclingAt(usize),
}

// The five numbers of a finding.
impl Outcome for Finding {
    ghost numbers = { finding_numbers };

    fn answer(&self) -> Answer {
        match *self {
            Finding::SoundPlan => Answer::success(0, 0),
            Finding::StartUnmarked(state) => Answer::refusal(10, 0, state, 0),
            Finding::StuckAt(state) => Answer::refusal(11, 0, state, 0),
            Finding::CirclingAt(state) => Answer::refusal(12, 0, state, 0),
        }
    }
}
