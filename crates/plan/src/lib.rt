// What a sampling plan is: the interface of every plan kind, and the five numbers of an answer.
#![tactic(auto)]

ghost use Rattle.std.specs.Prelude.{◌≡◌, length, slice_index};
ghost use Rattle.plan.specs.Model.{Model, Lawful};

pub mod answer;
pub mod outcome;

pub use answer::{Answer, Side, TooShort};
pub use outcome::{Outcome, opening_answer};

// A plan has at most this many states.
pub const MOST_STATES: usize = 128;

// And at most this many channels.
pub const MOST_CHANNELS: usize = 4;

// The seven questions that every plan answers. `meaning` says what the plan is; each answer is the
// meaning's, for every argument, and is the same every time. Whoever makes a further kind shows the
// law `lawful` and the seven answers, and nothing above is proved again.
pub trait Plan {
    ghost meaning: { Self → Model };

    // How many states there are: 1 to 128, numbered from 0.
    fn states(&self) -> usize
        ensures { result ≡ (meaning self.now).states };

    // The state in which the logger begins.
    fn start(&self) -> usize
        ensures { result ≡ (meaning self.now).start };

    // How many channels there are: 0 to 4.
    fn channels(&self) -> usize
        ensures { result ≡ (meaning self.now).channels };

    // Does a record close at this state? No for a state that does not exist.
    fn marked(&self, state: usize) -> bool
        ensures { result ≡ (meaning self.now).mark state };

    // The code that this state closes the channel with; 0 where nothing closes, or where there is no such state or channel.
    fn code(&self, state: usize, channel: usize) -> u32
        ensures { result ≡ (meaning self.now).code state channel };

    // How many steps lead out of this state.
    fn step_count(&self, state: usize) -> usize
        ensures { result ≡ length ((meaning self.now).steps state) };

    // Where step i of this state leads, i counting from 0; 0 where there is no such step.
    fn step(&self, state: usize, i: usize) -> usize
        ensures { result ≡ slice_index ((meaning self.now).steps state) i };

    ghost lawful: { (x : Self) → Lawful (meaning x) };
}
