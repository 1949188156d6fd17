// A row of a table: one state.
ghost use Rattle.std.specs.Prelude.{◌≡◌, ◌<◌, if◌then◌else◌, Some, None};
ghost use Rattle.table.specs.Layout.{flag_set, proper, proper_at};
ghost use Rattle.table.specs.Rows.{kept_steps, kept_row, leads_within};

use layout::{byte, long};

// Where a state steps to. Two equal targets are one step.
#[derive(Clone, Copy)]
pub enum Steps {
    Halt,
    One(u8),
    Two(u8, u8),
}

#[derive(Clone, Copy)]
pub struct Row {
    pub marked: bool,
    pub code: u32,
    pub steps: Steps,
}

// Is this bit of a row's flags set?
fn flag(flags: u8, bit: u32) -> bool
    requires { bit < 8 }
    ensures { result ≡ flag_set flags bit }
{
    (flags >> bit) % 2 == 1
}

// Is the row with these parts proper? (Five bytes and numbers that `read` has at hand and nothing else needs: a struct would be made to
// be taken apart.)
fn is_proper(flags: u8, first: u8, second: u8, fourth: u8, code: u32) -> bool
    ensures { result ≡ proper flags first second fourth code }
{
    (flags <= 7)
        & (flag(flags, 1) | !flag(flags, 2))
        & (flag(flags, 1) | (first == 0))
        & (flag(flags, 2) | (second == 0))
        & (fourth == 0)
        & (flag(flags, 0) | (code == 0))
}

impl Steps {
    // The steps that a row's flags and targets stand for.
    fn from_targets(flags: u8, first: u8, second: u8) -> Steps
        ensures { result ≡ kept_steps flags first second }
    {
        if !flag(flags, 1) {
            Steps::Halt
        } else if flag(flags, 2) && first != second {
            Steps::Two(first, second)
        } else {
            Steps::One(first)
        }
    }

    // Does each step lead to one of so many states?
    pub(crate) fn lead_within(self, states: usize) -> bool
        ensures { result ≡ leads_within states self }
    {
        match self {
            Steps::Halt => true,
            Steps::One(only) => usize::from(only) < states,
            Steps::Two(first, second) => (usize::from(first) < states)
                & (usize::from(second) < states),
        }
    }
}

impl Row {
    // The row of a state that does not exist.
    pub(crate) const BLANK: Row = Row {
        marked: false,
        code: 0,
        steps: Steps::Halt,
    };

    // The row that begins at this place of a file, if it is proper. (That the place is near speaks of an argument, and of no value that
    // lives on.)
    pub(crate) fn read(bytes: &[u8], at: usize) -> Option<Row>
        requires { at < 100000 }
        ensures { result ≡ (if proper_at bytes.now at then Some (kept_row bytes.now at) else None) }
    {
        let flags = byte(bytes, at);
        let first = byte(bytes, at + 1);
        let second = byte(bytes, at + 2);
        let code = long(bytes, at + 4);
        if !is_proper(flags, first, second, byte(bytes, at + 3), code) {
            return None;
        }
        Some(Row {
            marked: flag(flags, 0),
            code,
            steps: Steps::from_targets(flags, first, second),
        })
    }
}
