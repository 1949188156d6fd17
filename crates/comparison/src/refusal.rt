// Why a call on a comparison is refused.
ghost use Rattle.std.specs.Prelude.{◌≡◌};
ghost use Rattle.comparison.specs.Calls.{pair_numbers, load_refusal_numbers};
ghost use Rattle.comparison.specs.declared.refusal.LoadRefusal.TheVariants.{BadFile};

use layout::FileRefusal;
use plan::{Answer, Outcome, Side};

// Why a pair is refused.
#[derive(Clone, Copy, PartialEq, Eq, Debug)]
pub enum PairRefusal {
    // The plan of this side has no such state.
    NoState(Side),
    // The state of this side is not marked.
    Unmarked(Side),
}

// Why a pair file is refused.
#[derive(Clone, Copy, PartialEq, Eq, Debug)]
pub enum LoadRefusal {
    // The file itself.
    BadFile(FileRefusal),
    // This row's pair.
    BadRow(usize, PairRefusal),
}

impl PairRefusal {
    // The five numbers of this refusal where the pair is this row of a pair file, which p tells.
    pub fn answer_at(self, row: usize) -> Answer
        ensures { result ≡ pair_numbers row self }
    {
        match self {
            PairRefusal::NoState(side) => Answer::refusal(13, side.number(), row, 0),
            PairRefusal::Unmarked(side) => Answer::refusal(14, side.number(), row, 0),
        }
    }
}

// Where the pair is no row of a file, p is 0.
impl Outcome for PairRefusal {
    ghost numbers = { pair_numbers 0 };

    fn answer(&self) -> Answer {
        self.answer_at(0)
    }
}

impl Outcome for LoadRefusal {
    ghost numbers = { load_refusal_numbers };

    fn answer(&self) -> Answer {
        match self {
            LoadRefusal::BadFile(refusal) => refusal.answer(),
            LoadRefusal::BadRow(row, refusal) => refusal.answer_at(*row),
        }
    }
}

impl From<FileRefusal> for LoadRefusal {
    ghost from_gives = { λ e r. r ≡ BadFile e };

    fn from(refusal: FileRefusal) -> LoadRefusal {
        LoadRefusal::BadFile(refusal)
    }
}
