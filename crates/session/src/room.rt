// What a session reads, and where it writes.
ghost use Rattle.std.specs.Prelude.{◌≡◌};
ghost use Rattle.session.specs.Lent.{has_room_in};

use crate::line::Line;
use commands::Command;
use plan::Answer;

// At most so many lines come before those of the commands: D, L and G.
pub(crate) const OPENING_LINES: usize = 3;

// The bytes of a folder's files, each with a lifetime of its own: calls hold the pair file as long as they live, and the plan files
// may be gone sooner.
#[derive(Clone, Copy)]
pub struct Files<'d, 't, 'g, 'p> {
    pub drawing: &'d [u8],
    pub table: &'t [u8],
    pub gauge: &'g [u8],
    pub pairs: &'p [u8],
}

// The slices that are lent for a session: for the lines, the commands that are read, and the answers to their calls. By a rule
// of the project what runs calls does not allocate, so these are slices of the caller's and no vectors made here. The
// slice for the calls is lent beside them: calls hold the pair file, and the borrow checker has no rule yet by which a
// slice of what holds a reference is taken out of a struct.
#[derive(Drop)]
pub struct Room<'r> {
    pub lines: &'r mut [Line],
    pub commands: &'r mut [Command],
    pub answers: &'r mut [Answer],
}

impl<'r> Room<'r> {
    // Is there room for an input of this length, beside so many places for calls? A line of the input has at least one byte,
    // and three lines more are printed.
    pub(crate) fn holds(&self, input: usize, calls: usize) -> bool
        ensures { result ≡ has_room_in input calls self.now }
    {
        input <= self.commands.len()
            && input <= calls
            && input <= self.answers.len()
            && OPENING_LINES <= self.lines.len()
            && input <= self.lines.len() - OPENING_LINES
    }
}
