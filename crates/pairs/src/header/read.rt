// Reading the header of a pair file, and rows by it.
ghost use Rattle.std.specs.Prelude.{◌≡◌, ◌+◌, ◌*◌, if◌then◌else◌, MatchResult, nat_lt};
ghost use Rattle.layout.specs.Bytes.{byte_at};
ghost use Rattle.pairs.specs.PairFile.{RefusedFile};
ghost use Rattle.pairs.specs.Opened.{HeaderIn};

use super::PairHeader;
use crate::file::{PairFile, ROW};
use layout::{FileRefusal, byte};

impl PairHeader {
    // Reads a pair file: puts the questions that are put to the file alone, before its states are looked at.
    pub fn read(bytes: &[u8]) -> Result<PairHeader, FileRefusal>
        ensures { MatchResult result (HeaderIn bytes.now) (RefusedFile bytes.now) }
    {
        let file = PairFile::open(bytes)?;
        Ok(file.header())
    }

    // The states of row i, zeros where there is no such row.
    pub fn row(&self, bytes: &[u8], i: usize) -> (usize, usize)
        ensures { result ≡ (if nat_lt i self.now.count then (byte_at bytes.now (self.now.rows + 2 * i), byte_at bytes.now (self.now.rows + 2 * i + 1)) else (0, 0)) }
    {
        if i >= self.count {
            return (0, 0);
        }
        let at = self.rows + ROW * i;
        let state = |place| usize::from(byte(bytes, place));
        (state(at), state(at + 1))
    }

    // How many rows there are.
    pub fn count(&self) -> usize
        ensures { result ≡ self.now.count }
    {
        self.count
    }
}
