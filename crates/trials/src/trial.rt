// One trial: a file that is made, cut or filled up, and changed in some bytes, and the answer that is expected.
use crate::make;
use crate::make::resize;
use drawing::Drawing;
use plan::{Answer, opening_answer};
use std::alloc::{AllocError, Global};
use std::io;
use table::Table;

// The file that a case starts from. The kinds are data, as the cases are, which are constants: so no closure stands here.
#[derive(Clone, Copy)]
pub enum Made {
    // States, steps and channels.
    Drawing(u16, u16, u16),
    // States.
    Table(u16),
}

#[derive(Clone, Copy)]
pub struct Edit {
    pub at: usize,
    pub byte: u8,
}

pub struct Case {
    pub name: &'static str,
    pub made: Made,
    // The length that the file is cut off at, or filled up to, if it is not left as it is made.
    pub length: Option<usize>,
    pub edits: &'static [Edit],
    // Number, p and q.
    pub expected: (usize, usize, usize),
}

// The file of a case.
fn file(heap: Global, case: &Case) -> Result<Vec<u8>, AllocError> {
    let mut bytes = match case.made {
        Made::Drawing(states, steps, channels) => make::drawing(heap, states, steps, channels)?,
        Made::Table(states) => make::table(heap, states)?,
    };
    if let Some(length) = case.length {
        resize(&mut bytes, length)?;
    }
    for edit in case.edits {
        if let Some(byte) = bytes.get_mut(edit.at) {
            *byte = edit.byte;
        }
    }
    Ok(bytes)
}

// Opens the file of each case, and prints what was expected and what came.
pub(crate) fn run(rt: &HostRuntime, cases: &[Case]) -> io::Result<()> {
    for case in cases {
        let bytes = file(rt.alloc(), case)?;
        let (kind, came) = match case.made {
            Made::Drawing(_, _, _) => ("drawing", opening_answer(&Drawing::open(&bytes))),
            Made::Table(_) => ("table", opening_answer(&Table::open(&bytes))),
        };
        let (number, p, q) = case.expected;
        let expected = Answer::refusal(number, 0, p, q);
        let name = case.name;
        println!(rt; "{kind}, {name}: expected {expected}, came {came}")?;
    }
    Ok(())
}
