// Why no largest fitting set is found.
ghost use Rattle.std.specs.Prelude.{◌≡◌};
ghost use Rattle.largest.specs.Finding.{no_fit_numbers};
ghost use Rattle.largest.specs.declared.nofit.NoFit.TheVariants.{Plans};

use fitting::Incomparable;
use plan::{Answer, Outcome};

#[derive(Clone, Copy, PartialEq, Eq, Debug)]
pub enum NoFit {
    // The plans are not compared at all.
    Plans(Incomparable),
    // No set of pairs fits.
    NoneFits,
}

impl Outcome for NoFit {
    ghost numbers = { no_fit_numbers };

    fn answer(&self) -> Answer {
        match self {
            NoFit::Plans(refused) => refused.answer(),
            NoFit::NoneFits => Answer::refusal(20, 0, 0, 0),
        }
    }
}

impl From<Incomparable> for NoFit {
    ghost from_gives = { λ e r. r ≡ Plans e };

    fn from(refused: Incomparable) -> NoFit {
        NoFit::Plans(refused)
    }
}
