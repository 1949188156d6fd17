// Acceptance rules: which codes of the two plans go together.
#![tactic(auto)]

ghost use Rattle.std.specs.Prelude.{◌≡◌, ℕ, Bool};

mod accept;
mod exact;
mod fault;
mod listed;

pub use accept::Compared;
pub use exact::Exact;
pub use fault::Fault;
pub use listed::{CodePair, Listed};

// A rule is a fixed yes or no for a channel, a first code and a second code. `says` is what it means; whoever makes a
// further rule shows that the question is answered from that meaning.
pub trait Rule {
    ghost says: { Self → ℕ → ℕ → ℕ → Bool };

    // Does the rule say yes to this channel, this code of the first plan and this code of the second?
    fn accepts(&self, channel: usize, first: u32, second: u32) -> bool
        ensures { result ≡ says self.now channel first second };
}
