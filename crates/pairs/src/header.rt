// The header of a pair file: how many rows there are, and where they begin.
ghost use Rattle.std.specs.Prelude.{◌≤◌};

mod read;

// It holds no bytes, so whoever keeps it hands them in again for a row; a `PairFile` holds both.
#[derive(Drop)]
pub struct PairHeader {
    pub(crate) count: usize,
    pub(crate) rows: usize,
    ghost few: { count ≤ 16384 },
    ghost inside: { rows ≤ 40000 },
}
