// Files to try, made from their counts.
use std::alloc::{AllocError, Global};

// What a drawing begins with, and a table.
const DRAWING_SIGN: [u8; 2] = [0x44, 0x50];

const TABLE_SIGN: [u8; 2] = [0x50, 0x4B];

// A word, the low byte first.
fn push_word(bytes: &mut Vec<u8>, x: usize) -> Result<(), AllocError> {
    bytes.extend_from_slice(&((x % 65_536) as u16).to_le_bytes())
}

fn push_words(bytes: &mut Vec<u8>, words: &[usize]) -> Result<(), AllocError> {
    for word in words {
        push_word(bytes, *word)?;
    }
    Ok(())
}

fn push_state_rows(bytes: &mut Vec<u8>, states: usize, channels: usize) -> Result<(), AllocError> {
    for _ in 0..states {
        push_word(bytes, 1)?;
        let end = bytes.len().saturating_add(channels.saturating_mul(4));
        bytes.resize(end, 0)?;
    }
    Ok(())
}

// A drawing of so many states, all marked with code 0, and so many steps: eight from each state, to states 0 to 7.
// The parts touch, and the file ends with them.
pub(crate) fn drawing(
    heap: Global,
    states: u16,
    steps: u16,
    channels: u16,
) -> Result<Vec<u8>, AllocError> {
    let (states, steps, channels) = (
        usize::from(states),
        usize::from(steps),
        usize::from(channels),
    );
    let step_rows = 14 + states * (2 + 4 * channels);
    let mut bytes = Vec::new(heap);
    bytes.extend_from_slice(&DRAWING_SIGN)?;
    push_words(&mut bytes, &[states, steps, channels, 0, 14, step_rows])?;
    push_state_rows(&mut bytes, states, channels)?;
    for i in 0..steps {
        push_words(&mut bytes, &[i / 8, i % 8])?;
    }
    Ok(bytes)
}

// A table of so many states, all marked with code 0 and with steps to states 0 and 1.
pub(crate) fn table(heap: Global, states: u16) -> Result<Vec<u8>, AllocError> {
    let mut bytes = Vec::new(heap);
    bytes.extend_from_slice(&TABLE_SIGN)?;
    push_words(&mut bytes, &[usize::from(states), 0, 8])?;
    for _ in 0..states {
        bytes.extend_from_slice(&[7, 0, 1, 0, 0, 0, 0, 0])?;
    }
    Ok(bytes)
}

// The file cut off at this length, or filled up to it with zeros.
pub(crate) fn resize(bytes: &mut Vec<u8>, length: usize) -> Result<(), AllocError> {
    bytes.resize(length, 0)
}

// A row of a table: flags, first target, second target. The code of a marked state is 5 more than its number.
#[derive(Clone, Copy)]
pub struct TableRow(pub u8, pub u8, pub u8);

// A table of these rows.
pub(crate) fn table_of(heap: Global, rows: &[TableRow]) -> Result<Vec<u8>, AllocError> {
    let mut bytes = Vec::new(heap);
    bytes.extend_from_slice(&TABLE_SIGN)?;
    push_words(&mut bytes, &[rows.len(), 0, 8])?;
    for (i, TableRow(flags, first, second)) in rows.iter().enumerate() {
        bytes.extend_from_slice(&[*flags, *first, *second, 0])?;
        let code = if flags % 2 == 1 { (i % 256) + 5 } else { 0 };
        push_words(&mut bytes, &[code, 0])?;
    }
    Ok(bytes)
}

// A table of 128 states: marked 0 to 1, unmarked 1 to 2, and so on, and 127 back to 0.
pub(crate) fn chain(heap: Global) -> Result<Vec<u8>, AllocError> {
    let mut rows = Vec::new(heap);
    rows.push(TableRow(3, 1, 0))?;
    for i in 1..128u8 {
        rows.push(TableRow(2, (i + 1) % 128, 0))?;
    }
    table_of(heap, rows.as_slice())
}
