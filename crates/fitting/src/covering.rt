// The next closings of two plans, and which of them a set of pairs covers.
use closings::Closings;

mod ask;

// Next closings by closing; covered closings by the state of the other plan that covers them.
#[derive(Drop)]
pub(crate) struct Covering {
    next: Closings,
    covered: Closings,
}
