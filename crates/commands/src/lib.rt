// The commands of standard input: how it splits into lines, and how a line is read.
#![tactic(auto)]

mod command;
mod fields;
mod read;

pub use command::Command;
pub use read::read_commands;
