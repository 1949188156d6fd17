// A session: from the bytes that are read to the lines that are printed.
ghost use Rattle.std.specs.Prelude.{◌≡◌, ◌+◌, ◌≤◌, length, take, MatchResult};
ghost use Rattle.drawing.specs.contracts.drawing.ask.DrawingPlan.TheImpl.{ghosts};
ghost use Rattle.session.specs.Running.{Printed, NoRoom, RestPrinted};
ghost use Rattle.session.specs.Lent.{has_room_in, SameSlices};

use crate::answers::{answer_beside, write_lines};
use crate::line::Line;
use crate::room::{Files, OPENING_LINES, Room};
use crate::second::{gauge_answer, open_second};
use commands::{Command, read_commands};
use comparison::Call;
use drawing::Drawing;
use plan::{Answer, TooShort, opening_answer};
use table::Table;

// The lines L and G, and those of the commands, behind the line D of this drawing. Gives how many lines there are in all.
fn finish<'a>(
    drawing: Drawing,
    files: &Files<'_, '_, '_, 'a>,
    commands: &[Command],
    calls: &mut [Call<'a>],
    answers: &mut [Answer],
    lines: &mut [Line],
) -> usize
    requires calls { length commands.now ≤ length calls.old }
    requires answers { length commands.now ≤ length answers.old }
    requires lines { 3 + length commands.now ≤ length lines.old }
    ensures within { result ≤ 3 + length commands.now }
    ensures rest { RestPrinted (ghosts.meaning drawing) files.now.table.now files.now.gauge.now files.now.pairs.now commands.now (take 1 lines.old) (take result lines.new) }
{
    let opening = Table::open(files.table);
    lines[1] = Line {
        letter: 'L',
        answer: opening_answer(&opening),
    };
    let Ok(table) = opening else {
        return 2;
    };
    let second = open_second(table, files.gauge);
    lines[2] = Line {
        letter: 'G',
        answer: gauge_answer(&second),
    };
    let Ok(second) = second else {
        return OPENING_LINES;
    };
    answer_beside(drawing, second, files.pairs, commands, calls, answers);
    write_lines(commands, answers, lines, OPENING_LINES);
    OPENING_LINES + commands.len()
}

// A session, from the bytes that are read to the lines that are printed: the answers to the folder's files, up to the first
// refusal, and then a line for each line of the input. Gives how many lines there are. Refused, and nothing written, where a
// slice is shorter than the input, or the lines are not three more; the refusal tells how long the input is.
pub fn session<'a>(
    files: &Files<'_, '_, '_, 'a>,
    input: &[u8],
    room: &mut Room<'_>,
    calls: &mut [Call<'a>],
) -> Result<usize, TooShort>
    ensures prints { MatchResult result (Printed files.now input.now (has_room_in (length input.now) (length calls.old) room.old) room.new.lines.now) (λ e. NoRoom input.now (has_room_in (length input.now) (length calls.old) room.old) room.old.commands.now room.new.commands.now room.old.answers.now room.new.answers.now room.old.lines.now room.new.lines.now e.needed) }
    ensures slices { SameSlices room.old room.new }
{
    if !room.holds(input.len(), calls.len()) {
        return Err(TooShort {
            needed: input.len(),
        });
    }
    let lines = &mut *room.lines;
    let commands = &mut *room.commands;
    let answers = &mut *room.answers;
    let count = read_commands(input, commands)?;
    let opening = Drawing::open(files.drawing);
    lines[0] = Line {
        letter: 'D',
        answer: opening_answer(&opening),
    };
    let Ok(drawing) = opening else {
        return Ok(1);
    };
    Ok(finish(drawing, files, &commands[..count], calls, answers, lines))
}
