// Reading commands.
ghost use Rattle.std.specs.Prelude.{◌≡◌, MatchResult};
ghost use Rattle.commands.specs.Commands.{command_of};
ghost use Rattle.commands.specs.Reading.{command_by, Refused, Read};

use crate::command::Command;
use crate::fields::read_numbers;
use plan::TooShort;

// The command of a letter, from the two numbers behind it, if they are there, and from whether it stands alone.
fn command_by(letter: u8, numbers: Option<(usize, usize)>, alone: bool) -> Command
    ensures { result ≡ command_by letter numbers alone }
{
    match letter {
        b'a' => numbers.map_or(Command::Unknown, |(first, second)| {
            Command::Add(first, second)
        }),
        b's' => numbers.map_or(Command::Unknown, |(first, second)| {
            Command::Strike(first, second)
        }),
        b'p' if alone => Command::Load,
        _ => Command::Unknown,
    }
}

// Reads a line as a command.
fn read_command(line: &[u8]) -> Command
    ensures { result ≡ command_of line.now }
{
    match line {
        [letter] => command_by(*letter, None, true),
        [letter, b' ', ..] => command_by(*letter, read_numbers(line), false),
        _ => Command::Unknown,
    }
}

// Reads the input line by line, and writes the command of each line into the lent slice. Gives how many there are. Refused, and
// nothing touched, where the slice is shorter than the input, so that there might not be a place for each line.
pub fn read_commands(input: &[u8], commands: &mut [Command]) -> Result<usize, TooShort>
    ensures { MatchResult result (Read input.now commands.old commands.new) (λ e. Refused input.now commands.old commands.new e.needed) }
{
    if commands.len() < input.len() {
        return Err(TooShort {
            needed: input.len(),
        });
    }
    // The number of lines is handed back, so it is counted here: after a `zip` with the places, a proof knows nothing of what was written.
    let mut count = 0;
    for line in input.split_inclusive(|byte| *byte == b'\n') {
        commands[count] = read_command(line.strip_suffix(b"\n").unwrap_or(line));
        count += 1;
    }
    Ok(count)
}
