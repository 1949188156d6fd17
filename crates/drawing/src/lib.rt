// The engineer's drawing, a plan kind: how it is kept, how it is asked, and how its file is opened.
#![tactic(auto)]

mod drawing;
mod state;
mod steps;

pub use drawing::Drawing;
