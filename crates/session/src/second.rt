// What the drawing is compared with: the logger's table, or that joined with the gauge's.
ghost use Rattle.std.specs.Prelude.{◌≡◌};
ghost use Rattle.table.specs.contracts.table.ask.TablePlan.TheImpl.{ghosts};
ghost use Rattle.session.specs.Opening.{OpenedGauge, gauge_refusal_numbers, second_numbers};
ghost use Rattle.session.specs.declared.second.GaugeRefusal.TheVariants.{BadFile};

use join::{JoinRefusal, Joined};
use layout::FileRefusal;
use plan::{Answer, Outcome, Plan};
use table::Table;

// The second plan of a comparison.
pub enum Second {
    // There is no gauge: the logger's table.
    Alone(Table),
    // The two tables side by side.
    Both(Joined<Table, Table>),
}

// Why there is no second plan beside a logger's table that was opened.
#[derive(Clone, Copy, PartialEq, Eq, Debug)]
pub enum GaugeRefusal {
    // The gauge's file is refused.
    BadFile(FileRefusal),
    // The two tables are not joined.
    NotJoined(JoinRefusal),
}

impl Outcome for GaugeRefusal {
    ghost numbers = { gauge_refusal_numbers };

    fn answer(&self) -> Answer {
        match self {
            GaugeRefusal::BadFile(refusal) => refusal.answer(),
            GaugeRefusal::NotJoined(refusal) => refusal.answer(),
        }
    }
}

impl From<FileRefusal> for GaugeRefusal {
    ghost from_gives = { λ e r. r ≡ BadFile e };

    fn from(refusal: FileRefusal) -> GaugeRefusal {
        GaugeRefusal::BadFile(refusal)
    }
}

// Opens the gauge's table, unless its file is empty, and joins it with the logger's.
pub(crate) fn open_second(table: Table, gauge: &[u8]) -> Result<Second, GaugeRefusal>
    ensures { OpenedGauge (ghosts.meaning table) gauge.now result }
{
    if gauge.is_empty() {
        return Ok(Second::Alone(table));
    }
    let gauge = Table::open(gauge)?;
    let both = Joined::join(table, gauge).map_err(|back| GaugeRefusal::NotJoined(back.refusal))?;
    Ok(Second::Both(both))
}

// The answer to the gauge: zeros where there is none.
pub(crate) fn gauge_answer(second: &Result<Second, GaugeRefusal>) -> Answer
    ensures { result ≡ second_numbers second.now }
{
    match second {
        Ok(Second::Alone(_)) => Answer::success(0, 0),
        Ok(Second::Both(both)) => Answer::success(both.states(), both.channels()),
        Err(refusal) => refusal.answer(),
    }
}
