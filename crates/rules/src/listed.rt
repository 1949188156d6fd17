// The rule that lists which codes go together.
ghost use Rattle.std.specs.Prelude.{◌≡◌};
ghost use Rattle.rules.specs.Rules.{listed_says};

use crate::Rule;

// On this channel, these two codes go together.
#[derive(Clone, Copy, PartialEq, Eq)]
pub struct CodePair {
    pub channel: usize,
    pub first: u32,
    pub second: u32,
}

// The records of the rule, lent by whoever keeps them. No pair goes together that none of them names.
#[derive(Clone, Copy)]
pub struct Listed<'a> {
    records: &'a [CodePair],
}

impl<'a> Listed<'a> {
    // The rule of these records.
    pub fn new(records: &'a [CodePair]) -> Listed<'a>
        ensures { result.records.now ≡ records.now }
    {
        Listed { records }
    }
}

impl<'a> Rule for Listed<'a> {
    ghost says = { λ l. listed_says l.records.now };

    fn accepts(&self, channel: usize, first: u32, second: u32) -> bool {
        let wanted = CodePair {
            channel,
            first,
            second,
        };
        self.records.contains(&wanted)
    }
}
