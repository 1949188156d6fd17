// A state of a drawing: its mark and its codes.
ghost use Rattle.std.specs.Prelude.{◌≡◌, ◌<◌, ◌≤◌, false, MatchOption, ◌==◌};
ghost use Rattle.std.specs.List.{list_all};
ghost use Rattle.drawing.specs.Layout.{proper_at};
ghost use Rattle.drawing.specs.Opening.{CodesRead, StateRead};

use layout::{long, word};
use plan::MOST_CHANNELS;
use std::array;

#[derive(Clone, Copy)]
pub struct State {
    pub marked: bool,
    // By channel, 0 past the last one.
    pub codes: [u32; MOST_CHANNELS],
}

// The codes of the state row at this place. (That a place is near speaks of an argument, and of no value that lives on.)
fn read_codes(bytes: &[u8], at: usize, channels: usize) -> [u32; MOST_CHANNELS]
    requires near { at < 100000 }
    requires few { channels ≤ 4 }
    ensures { CodesRead bytes.now at channels result }
{
    array::from_fn(|k| if k < channels {
        long(bytes, at + 2 + 4 * k)
    } else {
        0
    })
}

// Are all codes 0?
fn all_zero(codes: &[u32; MOST_CHANNELS]) -> bool
    ensures { result ≡ list_all (λ code. code == 0) codes.now }
{
    codes.iter().all(|code| *code == 0)
}

impl State {
    // A state that does not exist.
    pub(crate) const BLANK: State = State {
        marked: false,
        codes: [0; MOST_CHANNELS],
    };

    // The state row at this place, if it is proper.
    pub(crate) fn read(bytes: &[u8], at: usize, channels: usize) -> Option<State>
        requires near { at < 100000 }
        requires few { channels ≤ 4 }
        ensures { MatchOption result (proper_at bytes.now at channels ≡ false) (StateRead bytes.now at channels) }
    {
        let mark = word(bytes, at);
        let codes = read_codes(bytes, at, channels);
        if (mark <= 1) & ((mark == 1) | all_zero(&codes)) {
            Some(State {
                marked: mark == 1,
                codes,
            })
        } else {
            None
        }
    }
}
