// Rules at their edges, and lists of calls.
use crate::make;
use crate::make::TableRow;
use comparison::{Call, Comparison};
use plan::{Answer, Outcome};
use rules::{CodePair, Exact, Fault, Listed, Rule};
use std::io;
use table::Table;
use vet::Vetted;

// The last code that is no fault, and the first that is one.
const NO_FAULT: u32 = 4_294_967_039;

const FAULT: u32 = 4_294_967_040;

// A question to a rule: the channel, the two codes, and the answer that is expected.
type Question = (usize, u32, u32, bool);

// Puts questions to a rule, and prints what was expected and what came.
fn ask<R: Rule>(rt: &HostRuntime, name: &str, rule: &R, questions: &[Question]) -> io::Result<()> {
    for (channel, first, second, expected) in questions {
        let came = rule.accepts(*channel, *first, *second);
        println!(rt;
            "{name}, channel {channel}, {first} with {second}: expected {expected}, came {came}"
        )?;
    }
    Ok(())
}

fn ask_rules(rt: &HostRuntime) -> io::Result<()> {
    ask(
        rt,
        "exact",
        &Exact,
        &[(0, 0, 0, true), (3, FAULT, FAULT, true), (0, 0, 1, false)],
    )?;
    ask(
        rt,
        "fault",
        &Fault,
        &[
            (0, 5, 5, true),
            (0, NO_FAULT, 5, false),
            (0, FAULT, 5, true),
            (0, 5, FAULT, false),
            (0, u32::MAX, 0, true),
        ],
    )
}

fn ask_listed(rt: &HostRuntime) -> io::Result<()> {
    let records = [
        CodePair {
            channel: 0,
            first: 1,
            second: 2,
        },
        CodePair {
            channel: 1,
            first: 3,
            second: 3,
        },
    ];
    ask(
        rt,
        "listed",
        &Listed::new(&records),
        &[
            (0, 1, 2, true),
            (1, 3, 3, true),
            (1, 1, 2, false),
            (0, 2, 1, false),
            (0, 0, 0, false),
        ],
    )
}

// Opens the same table twice, which every file here has.
fn open_twice(file: &[u8]) -> Option<(Table, Table)> {
    Some((Table::open(file).ok()?, Table::open(file).ok()?))
}

// Runs two calls, with this many places for their answers, and prints what is in the places then.
fn run_list(rt: &HostRuntime, first: Table, second: Table, places: usize) -> io::Result<()> {
    let mut comparison = Comparison::open(Vetted::vet(first), Vetted::vet(second), Exact);
    let mut answers = vec![in rt.alloc(); Answer::success(9, 9); places]?;
    let calls = [Call::Add(0, 0), Call::Strike(0, 0)];
    match comparison.run(&calls, &mut answers) {
        Ok(()) => println!(rt; "two calls, {places} places: run")?,
        Err(refused) => {
            let came = refused.answer();
            println!(rt; "two calls, {places} places: {came}")?;
        }
    }
    for answer in answers.iter() {
        println!(rt; "  {answer}")?;
    }
    Ok(())
}

fn run_lists(rt: &HostRuntime) -> io::Result<()> {
    let file = make::table_of(rt.alloc(), &[TableRow(1, 0, 0)])?;
    for places in 1..4 {
        if let Some((first, second)) = open_twice(&file) {
            run_list(rt, first, second, places)?;
        }
    }
    Ok(())
}

pub(crate) fn run(rt: &HostRuntime) -> io::Result<()> {
    ask_rules(rt)?;
    ask_listed(rt)?;
    run_lists(rt)
}
