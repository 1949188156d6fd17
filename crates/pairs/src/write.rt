// Writing the pair file of a table.
ghost use Rattle.std.specs.Prelude.{◌≡◌, ◌+◌, ◌*◌, ◌<◌, ◌≤◌, ◌++◌, length, drop, MatchResult};
ghost use Rattle.pairs.specs.Pairs.{kept_pairs};
ghost use Rattle.pairs.specs.Listing.{partners_below, listing, pair_count};
ghost use Rattle.pairs.specs.Writing.{header_bytes, pair_file, ReadsBack, Written, NotWritten};
ghost use Rattle.pairs.specs.Placing.{Placed};

use crate::file::{HEADER, ROW, SIGN};
use crate::table::PairTable;
use plan::{MOST_STATES, TooShort};

// Writes the header of a file with so many rows.
fn write_header(buffer: &mut [u8], count: usize)
    requires room { 6 ≤ length buffer.old }
    requires word { count < 65536 }
    ensures { buffer.new ≡ header_bytes count ++ drop 6 buffer.old }
{
    let [low, high] = (count as u16).to_le_bytes();
    // The rows follow the header directly.
    let header = [SIGN[0], SIGN[1], low, high, HEADER as u8, 0];
    buffer[..HEADER].copy_from_slice(&header);
}

impl PairTable {
    // Writes the rows of this first state from a place of the buffer on, and says where they end.
    fn write_partners(&self, first: usize, buffer: &mut [u8], from: usize) -> usize
        requires is_state { first < 128 }
        requires room { from + 2 * length (partners_below (kept_pairs self.now) first 128) ≤ length buffer.old }
        ensures { Placed (partners_below (kept_pairs self.now) first 128) buffer.old buffer.new from result }
    {
        // The place where the next row goes is what is handed back, so it is counted here: chunks of the buffer would not tell it.
        let mut at = from;
        for second in 0..MOST_STATES {
            if self.stands(first, second) {
                buffer[at] = first as u8;
                buffer[at + 1] = second as u8;
                at += ROW;
            }
        }
        at
    }

    // Writes all rows behind the header, and says where they end.
    fn write_rows(&self, buffer: &mut [u8]) -> usize
        requires { 6 + 2 * pair_count (kept_pairs self.now) ≤ length buffer.old }
        ensures { Placed (listing (kept_pairs self.now)) buffer.old buffer.new 6 result }
    {
        // Each call writes to the buffer that is lent, so this is a loop and no fold.
        let mut at = HEADER;
        for first in 0..MOST_STATES {
            at = self.write_partners(first, buffer, at);
        }
        at
    }

    // Writes the pair file of this table to the front of the buffer, and says how long it is. A buffer that is too short is
    // left as it is, and the refusal tells the bytes needed.
    pub fn write_file(&self, buffer: &mut [u8]) -> Result<usize, TooShort>
        ensures written { MatchResult result (Written (pair_file (kept_pairs self.now)) buffer.old buffer.new) (λ e. NotWritten (pair_file (kept_pairs self.now)) buffer.old buffer.new e.needed) }
        ensures back { ReadsBack (kept_pairs self.now) }
    {
        let count = self.count();
        let needed = HEADER + ROW * count;
        if buffer.len() < needed {
            return Err(TooShort { needed });
        }
        write_header(buffer, count);
        Ok(self.write_rows(buffer))
    }
}
