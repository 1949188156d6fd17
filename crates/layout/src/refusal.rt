// Why a plan file is refused.
ghost use Rattle.layout.specs.Refusals.{refusal_numbers};

use plan::{Answer, Outcome};

// One case for each question that is answered no; rows count from 0, and the lowest at fault is named.
#[derive(Clone, Copy, PartialEq, Eq, Debug)]
pub enum FileRefusal {
    // The file does not reach its header's length, or is longer than 40,000 bytes.
    Length,
    // The file does not begin with its sign.
    Sign,
    // A count is out of range.
    Counts,
    // The start is no state.
    Start,
    // The parts do not follow the header in order, overlap, or do not lie inside the file.
    Parts,
    // This row is no proper state row.
    Row(usize),
    // This row leads to what is no state, or is out of order.
    Step(usize),
}

impl Outcome for FileRefusal {
    ghost numbers = { refusal_numbers };

    fn answer(&self) -> Answer {
        match self {
            FileRefusal::Length => Answer::refusal(1, 0, 0, 0),
            FileRefusal::Sign => Answer::refusal(2, 0, 0, 0),
            FileRefusal::Counts => Answer::refusal(3, 0, 0, 0),
            FileRefusal::Start => Answer::refusal(4, 0, 0, 0),
            FileRefusal::Parts => Answer::refusal(5, 0, 0, 0),
            FileRefusal::Row(row) => Answer::refusal(6, 0, *row, 0),
            FileRefusal::Step(row) => Answer::refusal(7, 0, *row, 0),
        }
    }
}
