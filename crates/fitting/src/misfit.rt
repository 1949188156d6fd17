// Why a set of pairs is not accepted.
ghost use Rattle.std.specs.Prelude.{◌≡◌};
ghost use Rattle.fitting.specs.Numbers.{incomparable_numbers, misfit_numbers};
ghost use Rattle.fitting.specs.declared.misfit.Misfit.TheVariants.{Plans};

use plan::{Answer, Outcome, Side};
use vet::Finding;

// Why two plans are not compared at all.
#[derive(Clone, Copy, PartialEq, Eq, Debug)]
pub enum Incomparable {
    // The plan of this side is not sound; what vetting found of it.
    Unsound(Side, Finding),
    // The plans have these numbers of channels, which differ.
    Channels(usize, usize),
}

// Why a set of pairs is not accepted.
#[derive(Clone, Copy, PartialEq, Eq, Debug)]
pub enum Misfit {
    // The plans are not compared at all.
    Plans(Incomparable),
    // The pair of starts is not in the set.
    StartsApart,
    // The rule says no to the codes of this pair on this channel.
    Unacceptable {
        first: usize,
        second: usize,
        channel: usize,
    },
    // For this pair, this next closing of the side's state forms a pair with no next closing of the other state.
    Uncovered {
        side: Side,
        first: usize,
        second: usize,
        closing: usize,
    },
}

impl Outcome for Incomparable {
    ghost numbers = { incomparable_numbers };

    fn answer(&self) -> Answer {
        match self {
            Incomparable::Unsound(side, finding) => {
                let found = finding.answer();
                Answer::refusal(15, side.number(), found.number, found.p)
            }
            Incomparable::Channels(p, q) => Answer::refusal(16, 0, *p, *q),
        }
    }
}

impl Outcome for Misfit {
    ghost numbers = { misfit_numbers };

    fn answer(&self) -> Answer {
        match self {
            Misfit::Plans(refused) => refused.answer(),
            Misfit::StartsApart => Answer::refusal(17, 0, 0, 0),
            Misfit::Unacceptable {
                first,
                second,
                channel,
            } => Answer {
                number: 18,
                side: 0,
                p: *first,
                q: *second,
                r: *channel,
            },
            Misfit::Uncovered {
                side,
                first,
                second,
                closing,
            } => Answer {
                number: 19,
                side: side.number(),
                p: *first,
                q: *second,
                r: *closing,
            },
        }
    }
}

impl From<Incomparable> for Misfit {
    ghost from_gives = { λ e r. r ≡ Plans e };

    fn from(refused: Incomparable) -> Misfit {
        Misfit::Plans(refused)
    }
}
