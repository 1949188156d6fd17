// The commands of a session: from commands to calls, and from the calls' answers to lines.
ghost use Rattle.std.specs.Prelude.{◌≡◌, ◌+◌, ◌≤◌, ◌++◌, length, take, drop, MatchOption, slice_index_or, if◌then◌else◌};
ghost use Rattle.std.specs.Slice.Iter.{iter_rest};
ghost use Rattle.comparison.specs.Histories.{no_answer};
ghost use Rattle.commands.specs.declared.command.Command.TheVariants.{Unknown};
ghost use Rattle.session.specs.Session.{Makes, MakeCalls, Answered, command_lines, line_of, is_call};
ghost use Rattle.drawing.specs.contracts.drawing.ask.DrawingPlan.TheImpl.{ghosts};
ghost use Rattle.session.specs.Opening.{second_meaning};

use crate::line::Line;
use crate::second::Second;
use commands::Command;
use comparison::{Call, Comparison};
use drawing::Drawing;
use plan::{Answer, Plan};
use rules::Exact;
use std::slice;
use vet::Vetted;

// The call that a command makes; none where it is no command.
fn call_of<'a>(command: Command, file: &'a [u8]) -> Option<Call<'a>>
    ensures { MatchOption result (command ≡ Unknown) (Makes file.now command) }
{
    match command {
        Command::Add(s, t) => Some(Call::Add(s, t)),
        Command::Strike(s, t) => Some(Call::Strike(s, t)),
        Command::Load => Some(Call::Load(file)),
        Command::Unknown => None,
    }
}

// Writes the calls of the commands, in their order. Gives how many there are.
fn make_calls<'a>(commands: &[Command], file: &'a [u8], calls: &mut [Call<'a>]) -> usize
    requires { length commands.now ≤ length calls.old }
    ensures count { result ≤ length commands.now }
    ensures made { MakeCalls file.now commands.now (take result calls.new) }
{
    // The number of calls is handed back, so it is counted here; a `filter_map` would save no more than the `if let`.
    let mut n = 0;
    for command in commands {
        if let Some(call) = call_of(*command, file) {
            calls[n] = call;
            n += 1;
        }
    }
    n
}

// Runs the commands on a new comparison of the two plans, under Exact: one call with the whole list.
fn answer_commands<'a, A: Plan + Drop, B: Plan + Drop>(
    first: A,
    second: B,
    file: &'a [u8],
    commands: &[Command],
    calls: &mut [Call<'a>],
    answers: &mut [Answer],
)
    requires calls { length commands.now ≤ length calls.old }
    requires answers { length commands.now ≤ length answers.old }
    ensures { Answered (A.meaning first) (B.meaning second) file.now commands.now answers.new }
{
    let mut comparison = Comparison::open(Vetted::vet(first), Vetted::vet(second), Exact);
    let n = make_calls(commands, file, calls);
    let _ = comparison.run(&calls[..n], answers);
}

// The same for this drawing and a second plan of either kind.
pub(crate) fn answer_beside<'a>(
    drawing: Drawing,
    second: Second,
    file: &'a [u8],
    commands: &[Command],
    calls: &mut [Call<'a>],
    answers: &mut [Answer],
)
    requires calls { length commands.now ≤ length calls.old }
    requires answers { length commands.now ≤ length answers.old }
    ensures { Answered (ghosts.meaning drawing) (second_meaning second) file.now commands.now answers.new }
{
    match second {
        Second::Alone(table) => answer_commands(drawing, table, file, commands, calls, answers),
        Second::Both(both) => answer_commands(drawing, both, file, commands, calls, answers),
    }
}

// The line of a command, which takes the next answer if it makes a call.
fn next_line(command: Command, answers: &mut slice::Iter<'_, Answer>) -> Line
    ensures line { result ≡ line_of command (slice_index_or (iter_rest answers.old) 0 no_answer) }
    ensures taken { iter_rest answers.new ≡ (if is_call command then drop 1 (iter_rest answers.old) else iter_rest answers.old) }
{
    let letter = match command {
        Command::Add(_, _) => 'a',
        Command::Strike(_, _) => 's',
        Command::Load => 'p',
        Command::Unknown => {
            return Line {
                letter: '?',
                answer: Answer::refusal(23, 0, 0, 0),
            };
        }
    };
    let answer = answers.next().copied().unwrap_or(Answer::success(0, 0));
    Line { letter, answer }
}

// Writes a line for each command, from this place on.
pub(crate) fn write_lines(commands: &[Command], answers: &[Answer], lines: &mut [Line], at: usize)
    requires { at + length commands.now ≤ length lines.old }
    ensures { take (at + length commands.now) lines.new ≡ take at lines.old ++ command_lines commands.now answers.now }
{
    let mut left = answers.iter();
    // By index: where the places are lent out by `zip`, the proof does not know afterwards what was written into them.
    for (i, command) in commands.iter().enumerate() {
        lines[at + i] = next_line(*command, &mut left);
    }
}
