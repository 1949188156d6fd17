// An opened pair file: its bytes, how many rows there are, and where they begin.
ghost use Rattle.std.specs.Prelude.{◌≡◌};
ghost use Rattle.pairs.specs.PairFile.{FramePasses, count_in, rows_in};

mod open;

// How long the header is.
pub(crate) const HEADER: usize = 6;

// What the file begins with.
pub(crate) const SIGN: [u8; 2] = [0x52, 0x4C];

// A row has a byte for each of the two states.
pub(crate) const ROW: usize = 2;

// The bytes of a file that passes questions 1, 2, 3 and 5, and what its header says.
#[derive(Drop)]
pub struct PairFile<'a> {
    bytes: &'a [u8],
    count: usize,
    rows: usize,
    ghost frame: { FramePasses bytes.now },
    ghost count_is: { count ≡ count_in bytes.now },
    ghost rows_is: { rows ≡ rows_in bytes.now },
}
