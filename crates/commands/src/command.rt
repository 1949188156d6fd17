// A line of input, read. Each line is one of four kinds, and for an unknown one a line is printed as for the others: so it is
// a kind of its own here, and no None.
#[derive(Clone, Copy, PartialEq, Eq, Debug)]
pub enum Command {
    // Put in this pair.
    Add(usize, usize),
    // Take out this pair.
    Strike(usize, usize),
    // Load the pair file.
    Load,
    // No command.
    Unknown,
}
