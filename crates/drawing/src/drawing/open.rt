// Opening a drawing file: the seven questions, in their order.
ghost use Rattle.std.specs.Prelude.{◌≡◌, ◌<◌, IfOk, MatchResult};
ghost use Rattle.layout.specs.Refusals.{opening_numbers};
ghost use Rattle.drawing.specs.Layout.{states_in, steps_in, astray_in, drawing_plan, drawing_answer};
ghost use Rattle.drawing.specs.contracts.drawing.ask.DrawingPlan.TheImpl.{ghosts};
ghost use Rattle.drawing.specs.Opening.{HeaderRead, StatesRead, StepRowRead, StepsRead, Refused, LowestAstray};

use super::Drawing;
use crate::state::State;
use crate::steps::{MOST_STEPS, StepTable};
use layout::{FileRefusal, check_beginning, word};
use plan::{MOST_CHANNELS, MOST_STATES};

const HEADER: usize = 14;

const SIGN: [u8; 2] = [0x44, 0x50];

const STEP_ROW: usize = 4;

#[derive(Drop)]
struct Header {
    states: usize,
    steps: usize,
    channels: usize,
    start: usize,
    state_rows: usize,
    step_rows: usize,
}

// Puts the first five questions.
fn read_header(bytes: &[u8]) -> Result<Header, FileRefusal>
    ensures { MatchResult result (HeaderRead bytes.now) (Refused bytes.now) }
{
    check_beginning(bytes, HEADER, SIGN)?;
    let states = word(bytes, 2);
    let steps = word(bytes, 4);
    let channels = word(bytes, 6);
    if states == 0 || states > MOST_STATES || steps > MOST_STEPS || channels > MOST_CHANNELS {
        return Err(FileRefusal::Counts);
    }
    let start = word(bytes, 8);
    if start >= states {
        return Err(FileRefusal::Start);
    }
    let state_rows = word(bytes, 10);
    let step_rows = word(bytes, 12);
    if state_rows < HEADER
        || state_rows + states * (2 + 4 * channels) > step_rows
        || step_rows + STEP_ROW * steps > bytes.len()
    {
        return Err(FileRefusal::Parts);
    }
    Ok(Header {
        states,
        steps,
        channels,
        start,
        state_rows,
        step_rows,
    })
}

// A step row: the state that it leads from, and the one that it leads to. Rows are in the order of from, then to.
#[derive(Clone, Copy, PartialEq, Eq, PartialOrd, Ord)]
struct StepRow {
    from: usize,
    to: usize,
}

// A file with its header, which passes the first five questions.
#[derive(Drop)]
struct DrawingFile<'a> {
    bytes: &'a [u8],
    header: Header,
    ghost read: { HeaderRead bytes.now header },
}

impl<'a> DrawingFile<'a> {
    // Puts the first five questions.
    fn open(bytes: &'a [u8]) -> Result<DrawingFile<'a>, FileRefusal>
        ensures { MatchResult result (λ f. f.bytes.now ≡ bytes.now) (Refused bytes.now) }
    {
        let header = read_header(bytes)?;
        Ok(DrawingFile { bytes, header })
    }

    // Puts question 6 to each state row, and keeps the rows.
    fn read_states(&self) -> Result<[State; MOST_STATES], FileRefusal>
        ensures { MatchResult result (StatesRead self.now.bytes.now (states_in self.now.bytes.now)) (Refused self.now.bytes.now) }
    {
        // By index, a form that the users of this project ask for: the row that is refused is named by it. (`array::try_from_fn` would not
        // say that it is the lowest one.)
        let mut rows = [State::BLANK; MOST_STATES];
        let header = &self.header;
        let row_length = 2 + 4 * header.channels;
        for s in 0..header.states {
            let at = header.state_rows + s * row_length;
            rows[s] = State::read(self.bytes, at, header.channels).ok_or(FileRefusal::Row(s))?;
        }
        Ok(rows)
    }

    // Step row i.
    fn step_row(&self, i: usize) -> StepRow
        requires { i < 1024 }
        ensures { StepRowRead self.now.bytes.now i result }
    {
        let at = self.header.step_rows + STEP_ROW * i;
        StepRow {
            from: word(self.bytes, at),
            to: word(self.bytes, at + 2),
        }
    }

    // Does step row i, which is this one, lead astray, or not come after the row before it?
    fn leads_astray(&self, i: usize, row: StepRow) -> bool
        requires in_table { i < 1024 }
        requires is_row { StepRowRead self.now.bytes.now i row }
        ensures { result ≡ astray_in self.now.bytes.now i }
    {
        let out_of_order = i > 0 && !(self.step_row(i - 1) < row);
        (row.from >= self.header.states) | (row.to >= self.header.states) | out_of_order
    }

    // Puts question 7 to each step row, and keeps the steps.
    fn read_steps(&self) -> Result<StepTable, FileRefusal>
        ensures { MatchResult result (StepsRead self.now.bytes.now (steps_in self.now.bytes.now)) (LowestAstray self.now.bytes.now) }
    {
        // By index, as above: a row is compared with the one before it, and named where it is refused.
        let mut steps = StepTable::empty();
        for i in 0..self.header.steps {
            let row = self.step_row(i);
            if self.leads_astray(i, row) {
                return Err(FileRefusal::Step(i));
            }
            steps.add(i, row.from, row.to as u8);
        }
        Ok(steps)
    }
}

impl Drawing {
    // Opens a drawing file: exactly the plan that the file's layout says, or the refusal of the first question
    // that is answered no. The plan's meaning here is the one by which it answers as a plan.
    pub fn open(bytes: &[u8]) -> Result<Drawing, FileRefusal>
        ensures numbers { opening_numbers ghosts.meaning result ≡ drawing_answer bytes.now }
        ensures plan { IfOk result (λ d. ghosts.meaning d ≡ drawing_plan bytes.now) }
    {
        let file = DrawingFile::open(bytes)?;
        let rows = file.read_states()?;
        let steps = file.read_steps()?;
        Ok(Drawing {
            states: file.header.states,
            start: file.header.start,
            channels: file.header.channels,
            rows,
            steps,
        })
    }
}
