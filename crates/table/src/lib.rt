// The logger's table, a plan kind: how it is kept, how it is asked, and how its file is opened.
#![tactic(auto)]

mod row;
mod table;

pub use table::Table;
