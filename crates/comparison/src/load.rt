// Loading the pairs of a pair file, all or none.
ghost use Rattle.std.specs.Prelude.{◌≡◌, MatchResult};
ghost use Rattle.pairs.specs.Pairs.{kept_pairs};
ghost use Rattle.pairs.specs.PairFile.{pairs_in, count_in};
ghost use Rattle.comparison.specs.Settings.{setting_of, standing, Consistent, SameSetting};
ghost use Rattle.comparison.specs.Calls.{load_answer, load_numbers, after_load};
ghost use Rattle.comparison.specs.Loading.{RowsAllowed, RefusedRow, RowsFit};

use crate::Comparison;
use crate::refusal::LoadRefusal;
use pairs::{PairFile, PairTable};
use plan::Plan;
use rules::Rule;

// The table of a file's pairs.
fn table_of(file: &PairFile<'_>) -> PairTable
    requires { RowsFit file.now.bytes.now (count_in file.now.bytes.now) }
    ensures { kept_pairs result ≡ pairs_in file.now.bytes.now }
{
    // By row number: an iterator of a file's rows would be a type and a proof more for two loops.
    let mut pairs = PairTable::empty();
    for i in 0..file.count() {
        let (s, t) = file.row(i);
        pairs.put(s, t);
    }
    pairs
}

impl<A: Plan, B: Plan, R: Rule> Comparison<A, B, R> {
    // May the pairs of all rows stand? If not, the lowest row whose pair is refused.
    fn check_rows(&self, file: &PairFile<'_>) -> Result<(), LoadRefusal>
        ensures { MatchResult result (λ _. RowsAllowed (setting_of A.meaning B.meaning R.says self.now) file.now.bytes.now (count_in file.now.bytes.now)) (RefusedRow (setting_of A.meaning B.meaning R.says self.now) file.now.bytes.now) }
    {
        // By row number, which the refusal tells.
        for i in 0..file.count() {
            let (s, t) = file.row(i);
            self.check_pair(s, t)
                .map_err(|refusal| LoadRefusal::BadRow(i, refusal))?;
        }
        Ok(())
    }

    // Replaces the standing pairs by those of a pair file, all or none. Says how many there are.
    pub fn load(&mut self, bytes: &[u8]) -> Result<usize, LoadRefusal>
        requires { Consistent (setting_of A.meaning B.meaning R.says self.old) (standing self.old) }
        ensures answer { load_numbers result ≡ load_answer (setting_of A.meaning B.meaning R.says self.old) bytes.now }
        ensures pairs { standing self.new ≡ after_load (setting_of A.meaning B.meaning R.says self.old) (standing self.old) bytes.now }
        ensures same { SameSetting self.old self.new }
        ensures consistent { Consistent (setting_of A.meaning B.meaning R.says self.new) (standing self.new) }
    {
        let file = PairFile::open(bytes)?;
        self.check_rows(&file)?;
        self.pairs = table_of(&file);
        Ok(file.count())
    }
}
