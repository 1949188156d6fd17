// Opening a pair file: the questions that are put to the file alone, and its rows.
ghost use Rattle.std.specs.Prelude.{◌≡◌, ◌<◌, not, if◌then◌else◌, MatchOption, MatchResult, nat_lt};
ghost use Rattle.layout.specs.Lowest.{Lowest};
ghost use Rattle.pairs.specs.PairFile.{InOrder, RefusedFile, out_of_order, count_in, rows_in, first_in, second_in};
ghost use Rattle.pairs.specs.Opened.{HeaderOf, FrameOf};

use super::{HEADER, PairFile, ROW, SIGN};
use crate::header::PairHeader;
use crate::table::MOST_PAIRS;
use layout::{FileRefusal, check_beginning, word};

impl<'a> PairFile<'a> {
    // Puts questions 1, 2, 3 and 5.
    fn read_frame(bytes: &'a [u8]) -> Result<PairFile<'a>, FileRefusal>
        ensures { MatchResult result (FrameOf bytes.now) (RefusedFile bytes.now) }
    {
        check_beginning(bytes, HEADER, SIGN)?;
        let count = word(bytes, 2);
        if count > MOST_PAIRS {
            return Err(FileRefusal::Counts);
        }
        let rows = word(bytes, 4);
        if rows < HEADER || rows + ROW * count > bytes.len() {
            return Err(FileRefusal::Parts);
        }
        Ok(PairFile { bytes, count, rows })
    }

    // What its header says, without the bytes.
    pub fn header(&self) -> PairHeader
        ensures count { result.count ≡ count_in self.now.bytes.now }
        ensures rows { result.rows ≡ rows_in self.now.bytes.now }
    {
        PairHeader {
            count: self.count,
            rows: self.rows,
        }
    }

    // The states of row i, zeros where there is no such row.
    pub fn row(&self, i: usize) -> (usize, usize)
        ensures { result ≡ (if nat_lt i (count_in self.now.bytes.now) then (first_in self.now.bytes.now i, second_in self.now.bytes.now i) else (0, 0)) }
    {
        self.header().row(self.bytes, i)
    }

    // How many rows there are.
    pub fn count(&self) -> usize
        ensures { result ≡ count_in self.now.bytes.now }
    {
        self.count
    }

    // Does row i, which is not the first, come after the row before it?
    fn is_in_order(&self, i: usize) -> bool
        requires later { 0 < i }
        requires is_row { i < count_in self.now.bytes.now }
        ensures { result ≡ not (out_of_order self.now.bytes.now i) }
    {
        self.row(i - 1) < self.row(i)
    }

    // The lowest row that is out of order.
    fn lowest_out_of_order(&self) -> Option<usize>
        ensures { MatchOption result (InOrder self.now.bytes.now (count_in self.now.bytes.now)) (Lowest (out_of_order self.now.bytes.now) (count_in self.now.bytes.now)) }
    {
        (1..self.count).find(|i| !self.is_in_order(*i))
    }

    // Opens a pair file: puts the questions that are put to the file alone, before its states are looked at.
    pub fn open(bytes: &'a [u8]) -> Result<PairFile<'a>, FileRefusal>
        ensures { MatchResult result (HeaderOf bytes.now) (RefusedFile bytes.now) }
    {
        let file = PairFile::read_frame(bytes)?;
        if let Some(row) = file.lowest_out_of_order() {
            return Err(FileRefusal::Step(row));
        }
        Ok(file)
    }
}
