// Opening a table file: the seven questions, in their order.
ghost use Rattle.std.specs.Prelude.{◌≡◌, ◌≤◌, IfOk, MatchResult};
ghost use Rattle.layout.specs.Refusals.{opening_numbers};
ghost use Rattle.table.specs.Layout.{table_plan, table_answer, states_in};
ghost use Rattle.table.specs.contracts.table.ask.TablePlan.TheImpl.{ghosts};
ghost use Rattle.table.specs.Opening.{HeaderRead, RowsRead, Refused, LowestAstray, LeadWithin};

use super::Table;
use crate::row::Row;
use layout::{FileRefusal, check_beginning, word};
use plan::MOST_STATES;

const HEADER: usize = 8;

const SIGN: [u8; 2] = [0x50, 0x4B];

const ROW: usize = 8;

#[derive(Drop)]
struct Header {
    states: usize,
    start: usize,
    rows: usize,
}

// Puts the first five questions.
fn read_header(bytes: &[u8]) -> Result<Header, FileRefusal>
    ensures { MatchResult result (HeaderRead bytes.now) (Refused bytes.now) }
{
    check_beginning(bytes, HEADER, SIGN)?;
    let states = word(bytes, 2);
    if states == 0 || states > MOST_STATES {
        return Err(FileRefusal::Counts);
    }
    let start = word(bytes, 4);
    if start >= states {
        return Err(FileRefusal::Start);
    }
    let rows = word(bytes, 6);
    if rows < HEADER || rows + ROW * states > bytes.len() {
        return Err(FileRefusal::Parts);
    }
    Ok(Header {
        states,
        start,
        rows,
    })
}

// Puts question 6 to each row, and keeps the rows.
fn read_rows(bytes: &[u8], header: &Header) -> Result<[Row; MOST_STATES], FileRefusal>
    requires { HeaderRead bytes.now header.now }
    ensures { MatchResult result (RowsRead bytes.now (states_in bytes.now)) (Refused bytes.now) }
{
    // Tried with `array::try_from_fn`: its contract does not say that the row at which it stops is the lowest one refused.
    let mut rows = [Row::BLANK; MOST_STATES];
    for i in 0..header.states {
        rows[i] = Row::read(bytes, header.rows + ROW * i).ok_or(FileRefusal::Row(i))?;
    }
    Ok(rows)
}

// Puts question 7 to each row.
fn check_targets(rows: &[Row; MOST_STATES], states: usize) -> Result<(), FileRefusal>
    requires { states ≤ 128 }
    ensures { MatchResult result (λ _. LeadWithin rows.now states states) (LowestAstray rows.now states) }
{
    let astray = rows[..states]
        .iter()
        .position(|row| !row.steps.lead_within(states));
    if let Some(row) = astray {
        return Err(FileRefusal::Step(row));
    }
    Ok(())
}

impl Table {
    // Opens a table file: exactly the plan that the file's layout says, or the refusal of the first question
    // that is answered no. The plan's meaning here is the one by which it answers as a plan.
    pub fn open(bytes: &[u8]) -> Result<Table, FileRefusal>
        ensures numbers { opening_numbers ghosts.meaning result ≡ table_answer bytes.now }
        ensures plan { IfOk result (λ t. ghosts.meaning t ≡ table_plan bytes.now) }
    {
        let header = read_header(bytes)?;
        let rows = read_rows(bytes, &header)?;
        check_targets(&rows, header.states)?;
        Ok(Table {
            states: header.states,
            start: header.start,
            rows,
        })
    }
}
