// Pairs of states: the table of those that stand, and the pair file.
#![tactic(auto)]

mod file;
mod header;
mod table;
mod write;

pub use file::PairFile;
pub use header::PairHeader;
pub use table::PairTable;
