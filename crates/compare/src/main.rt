// Opens the plan files of the working folder, runs the commands of standard input, and prints a line for each: a letter and the
// five numbers of the answer.
#![tactic(auto)]

use commands::Command;
use comparison::Call;
use layout::LONGEST;
use plan::Answer;
use session::{Files, Line, Room, session};
use std::fs::File;
use std::io;
use std::io::{ErrorKind, Read};

// One byte more than a file may have: a longer file is refused for its length, so no more of it is read.
const MOST_OF_A_FILE: u64 = LONGEST as u64 + 1;

// No more of standard input is read.
const MOST_INPUT: u64 = 65_536;

// The bytes of a file of the working folder, as many as matter. A file that is missing is read as an empty one; one that
// is there and cannot be read is an error.
fn read_file(rt: &HostRuntime, name: &str) -> io::Result<Vec<u8>> {
    let mut bytes = Vec::new(rt.alloc());
    match File::open(rt, name) {
        Ok(file) => {
            file.take(MOST_OF_A_FILE).read_to_end(&mut bytes)?;
            Ok(bytes)
        }
        Err(e) => match e.kind() {
            ErrorKind::NotFound => Ok(bytes),
            _ => Err(e),
        },
    }
}

fn read_input(rt: &HostRuntime) -> io::Result<Vec<u8>> {
    let mut bytes = Vec::new(rt.alloc());
    rt.stdin().take(MOST_INPUT).read_to_end(&mut bytes)?;
    Ok(bytes)
}

fn run(rt: &HostRuntime) -> anyhow::Result<()> {
    let drawing = read_file(rt, "drawing.dp")?;
    let table = read_file(rt, "logger.tb")?;
    let gauge = read_file(rt, "gauge.tb")?;
    let pairs = read_file(rt, "pairs.rl")?;
    let input = read_input(rt)?;
    let heap = rt.alloc();
    let most = input.len();
    let mut commands = vec![in heap; Command::Unknown; most]?;
    let mut calls = vec![in heap; Call::Add(0, 0); most]?;
    let mut answers = vec![in heap; Answer::success(0, 0); most]?;
    let blank = Line {
        letter: ' ',
        answer: Answer::success(0, 0),
    };
    let mut lines = vec![in heap; blank; most.saturating_add(3)]?;
    let files = Files {
        drawing: &drawing,
        table: &table,
        gauge: &gauge,
        pairs: &pairs,
    };
    let mut room = Room {
        lines: &mut lines,
        commands: &mut commands,
        answers: &mut answers,
    };
    let printed = session(&files, &input, &mut room, &mut calls);
    for line in lines.iter().take(printed.unwrap_or(0)) {
        println!(rt; "{line}")?;
    }
    Ok(())
}

fn main(rt: HostRuntime) -> anyhow::Result<()> {
    run(&rt)
}
