// The table of the pairs that stand: a byte for each pair of states.
ghost use Rattle.std.specs.Prelude.{◌≡◌, ℕ, ◌<◌, true, length, if◌then◌else◌, ◌==◌, slice_index, Decides, MatchBool};
ghost use Rattle.pairs.specs.Listing.{partners_below, listing, pair_count, Lists};
ghost use Rattle.pairs.specs.Pairs.{no_pairs, with_pair, without_pair, fits_table, kept_pairs, RowWithin, RowSays};

use plan::MOST_STATES;

// There are at most this many pairs of states.
pub(crate) const MOST_PAIRS: usize = MOST_STATES * MOST_STATES;

// Row by state of the first plan, column by state of the second; 1 where the pair stands. A byte for each pair in a plain struct, a form
// that the users of this project ask for.
#[derive(Drop)]
pub struct PairTable {
    bytes: [u8; MOST_PAIRS],
}

impl PairTable {
    // No pair stands.
    pub fn empty() -> PairTable
        ensures { kept_pairs result ≡ no_pairs }
    {
        PairTable {
            bytes: [0; MOST_PAIRS],
        }
    }

    // Does this pair stand?
    pub fn stands(&self, first: usize, second: usize) -> bool
        ensures { result ≡ kept_pairs self.now first second }
    {
        first < MOST_STATES && second < MOST_STATES && self.bytes[first * MOST_STATES + second] == 1
    }

    // Says whether a pair stands. A pair that does not fit the table is left out.
    fn set(&mut self, first: usize, second: usize, stands: bool)
        ensures { MatchBool stands (kept_pairs self.new ≡ (if fits_table first second then with_pair (kept_pairs self.old) first second else kept_pairs self.old)) (kept_pairs self.new ≡ without_pair (kept_pairs self.old) first second) }
    {
        if first < MOST_STATES && second < MOST_STATES {
            self.bytes[first * MOST_STATES + second] = u8::from(stands);
        }
    }

    // Puts a pair in. A pair that does not fit the table is left out.
    pub fn put(&mut self, first: usize, second: usize)
        ensures { kept_pairs self.new ≡ (if fits_table first second then with_pair (kept_pairs self.old) first second else kept_pairs self.old) }
    {
        self.set(first, second, true);
    }

    // Takes a pair out.
    pub fn strike(&mut self, first: usize, second: usize)
        ensures { kept_pairs self.new ≡ without_pair (kept_pairs self.old) first second }
    {
        self.set(first, second, false);
    }

    // How many pairs of this first state stand.
    fn row_count(&self, first: usize) -> usize
        ensures { result ≡ length (partners_below (kept_pairs self.now) first 128) }
    {
        if first >= MOST_STATES {
            return 0;
        }
        // A sum: `filter` and `count`, over the states or over these bytes, take more than twice as long.
        self.row(first)
            .iter()
            .map(|byte| usize::from(*byte == 1))
            .sum()
    }

    // How many pairs stand.
    pub fn count(&self) -> usize
        ensures count { result ≡ pair_count (kept_pairs self.now) }
        ensures lists { Lists (kept_pairs self.now) (listing (kept_pairs self.now)) }
    {
        (0..MOST_STATES).map(|first| self.row_count(first)).sum()
    }

    // The pairs of which a test says yes.
    pub fn from_fn<F: Fn(usize, usize) -> bool>(test: F) -> PairTable
        requires { F.IsAlwaysCallable test }
        ensures { (s t : ℕ) → s < 128 → t < 128 → F.post test s t (kept_pairs result s t) }
    {
        let mut pairs = PairTable::empty();
        for first in 0..MOST_STATES {
            for second in 0..MOST_STATES {
                pairs.set(first, second, test(first, second));
            }
        }
        pairs
    }

    // The pairs of which the rows say yes, each row by its first state. (`from_fn` is not this with an array made of its test: each place
    // would go through an array, and a reader through two closures.)
    pub fn from_rows<F: Fn(usize) -> [bool; MOST_STATES]>(rows: F) -> PairTable
        requires { F.IsAlwaysCallable rows }
        ensures { (s : ℕ) → s < 128 → RowSays (F.post rows) (kept_pairs result) s }
    {
        let mut pairs = PairTable::empty();
        for first in 0..MOST_STATES {
            let row = rows(first);
            for second in 0..MOST_STATES {
                pairs.set(first, second, row[second]);
            }
        }
        pairs
    }

    // The same pairs with their states exchanged.
    pub fn transposed(&self) -> PairTable
        ensures { kept_pairs result ≡ (λ x y. kept_pairs self.now y x) }
    {
        PairTable::from_fn(|first, second| self.stands(second, first))
    }

    // The bytes of row i.
    fn row(&self, i: usize) -> &[u8]
        requires { i < 128 }
        ensures long { length result.now ≡ 128 }
        ensures kept { (y : ℕ) → y < 128 → (slice_index result.now y == 1) ≡ kept_pairs self.now i y }
    {
        &self.bytes[i * MOST_STATES..(i + 1) * MOST_STATES]
    }

    // Have row i of this table and row j of the other a second state in common?
    pub fn rows_meet(&self, i: usize, other: &PairTable, j: usize) -> bool
        ensures { Decides result ((y : ℕ) × (kept_pairs self.now i y ≡ true) × (kept_pairs other.now j y ≡ true)) }
    {
        if i >= MOST_STATES || j >= MOST_STATES {
            return false;
        }
        // Each column is looked at, also once one was found, so that many can be looked at together.
        self.row(i)
            .iter()
            .zip(other.row(j))
            .fold(false, |met, (x, y)| met | ((*x == 1) & (*y == 1)))
    }

    // Has row j of the other table each second state that row i of this one has?
    pub fn row_within(&self, i: usize, other: &PairTable, j: usize) -> bool
        ensures { Decides result (RowWithin (kept_pairs self.now) i (kept_pairs other.now) j) }
    {
        if i >= MOST_STATES || j >= MOST_STATES {
            // One of the rows lies behind its table and has nothing.
            return self.row_count(i) == 0;
        }
        // Each column is looked at, also once one is missing, so that many can be looked at together.
        self.row(i)
            .iter()
            .zip(other.row(j))
            .fold(true, |within, (x, y)| within & ((*x != 1) | (*y == 1)))
    }
}
