// What the program prints, from the bytes that it reads.
#![tactic(auto)]

mod answers;
mod line;
mod room;
mod run;
mod second;

pub use line::Line;
pub use room::{Files, Room};
pub use run::session;
