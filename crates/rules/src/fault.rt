// The rule that wants equal codes, and lets any second code go with a fault.
ghost use Rattle.rules.specs.Rules.{fault_says};

use crate::Rule;

// Codes from here upward are faults.
const FIRST_FAULT: u32 = 4_294_967_040;

// Beside `Exact`, and not one rule with a flag: each is a single expression.
#[derive(Clone, Copy)]
pub struct Fault;

impl Rule for Fault {
    ghost says = { λ _. fault_says };

    fn accepts(&self, _channel: usize, first: u32, second: u32) -> bool {
        first == second || FIRST_FAULT <= first
    }
}
