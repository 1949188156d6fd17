// The rule that wants equal codes.
ghost use Rattle.rules.specs.Rules.{exact_says};

use crate::Rule;

#[derive(Clone, Copy)]
pub struct Exact;

impl Rule for Exact {
    ghost says = { λ _. exact_says };

    fn accepts(&self, _channel: usize, first: u32, second: u32) -> bool {
        first == second
    }
}
