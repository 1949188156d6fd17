// Small plans to vet, and plans to join.
use crate::make;
use crate::make::TableRow;
use drawing::Drawing;
use join::Joined;
use plan::{Answer, Outcome, Plan, opening_answer};
use std::io;
use table::Table;
use vet::Vetted;

// A table and the finding that is expected: number and p.
struct Case {
    name: &'static str,
    rows: &'static [TableRow],
    expected: (usize, usize),
}

const CASES: [Case; 9] = [
    Case {
        name: "a marked state without steps",
        rows: &[TableRow(1, 0, 0)],
        expected: (0, 0),
    },
    Case {
        name: "one unmarked state",
        rows: &[TableRow(0, 0, 0)],
        expected: (10, 0),
    },
    Case {
        name: "marked 0 to unmarked 1, which stops",
        rows: &[TableRow(3, 1, 0), TableRow(0, 0, 0)],
        expected: (11, 1),
    },
    Case {
        name: "marked 0 to unmarked 1, which steps to itself",
        rows: &[TableRow(3, 1, 0), TableRow(2, 1, 0)],
        expected: (12, 1),
    },
    Case {
        name: "marked 0 alone beside unmarked 1, which steps to itself",
        rows: &[TableRow(1, 0, 0), TableRow(2, 1, 0)],
        expected: (0, 0),
    },
    Case {
        name: "a fault behind a marked state that the start does not reach",
        rows: &[TableRow(1, 0, 0), TableRow(3, 2, 0), TableRow(0, 0, 0)],
        expected: (11, 2),
    },
    Case {
        name: "two stuck states, the higher one reached first",
        rows: &[
            TableRow(3, 3, 0),
            TableRow(0, 0, 0),
            TableRow(0, 0, 0),
            TableRow(6, 2, 1),
        ],
        expected: (11, 1),
    },
    Case {
        name: "1 only leads to the cycle of 2 and 3",
        rows: &[
            TableRow(3, 1, 0),
            TableRow(2, 3, 0),
            TableRow(2, 3, 0),
            TableRow(2, 2, 0),
        ],
        expected: (12, 2),
    },
    Case {
        name: "a cycle through a marked state",
        rows: &[TableRow(3, 1, 0), TableRow(2, 2, 0), TableRow(3, 1, 0)],
        expected: (0, 0),
    },
];

fn print(
    rt: &HostRuntime,
    what: &str,
    name: &str,
    expected: Answer,
    came: Answer,
) -> io::Result<()> {
    println!(rt; "{what}, {name}: expected {expected}, came {came}")
}

fn answer(number: usize, p: usize, q: usize) -> Answer {
    Answer::refusal(number, 0, p, q)
}

// Vets the plan of a table file, which every file here has, and prints what was expected, number and p, and what came.
fn vet_table(
    rt: &HostRuntime,
    name: &str,
    bytes: &[u8],
    expected: (usize, usize),
) -> io::Result<()> {
    let Ok(table) = Table::open(bytes) else {
        return Ok(());
    };
    let (number, p) = expected;
    let came = Vetted::vet(table).finding().answer();
    print(rt, "vet", name, answer(number, p, 0), came)
}

fn vet_cases(rt: &HostRuntime) -> io::Result<()> {
    for case in CASES.iter() {
        let bytes = make::table_of(rt.alloc(), case.rows)?;
        vet_table(rt, case.name, &bytes, case.expected)?;
    }
    let bytes = make::chain(rt.alloc())?;
    let name = "127 unmarked states from a marked one back to it";
    vet_table(rt, name, &bytes, (0, 0))
}

// Two drawings of so many states and channels, and the answer that is expected of joining them: number, p and q.
struct JoinCase {
    name: &'static str,
    first: (u16, u16),
    second: (u16, u16),
    expected: (usize, usize, usize),
}

const JOINS: [JoinCase; 5] = [
    JoinCase {
        name: "8 and 16 states",
        first: (8, 1),
        second: (16, 1),
        expected: (0, 128, 2),
    },
    JoinCase {
        name: "8 and 17 states",
        first: (8, 1),
        second: (17, 1),
        expected: (8, 8, 17),
    },
    JoinCase {
        name: "2 and 2 channels",
        first: (8, 2),
        second: (16, 2),
        expected: (0, 128, 4),
    },
    JoinCase {
        name: "3 and 2 channels",
        first: (8, 3),
        second: (16, 2),
        expected: (9, 3, 2),
    },
    JoinCase {
        name: "too many states and channels",
        first: (8, 3),
        second: (17, 2),
        expected: (8, 8, 17),
    },
];

// Joins the plans of two drawings, which every two files here have.
fn join(first: &[u8], second: &[u8]) -> Option<Answer> {
    let joined = Joined::join(Drawing::open(first).ok()?, Drawing::open(second).ok()?);
    Some(opening_answer(&joined))
}

fn join_cases(rt: &HostRuntime) -> io::Result<()> {
    for case in JOINS.iter() {
        let first = make::drawing(rt.alloc(), case.first.0, 0, case.first.1)?;
        let second = make::drawing(rt.alloc(), case.second.0, 0, case.second.1)?;
        let (number, p, q) = case.expected;
        if let Some(came) = join(&first, &second) {
            print(rt, "join", case.name, answer(number, p, q), came)?;
        }
    }
    Ok(())
}

// All that two joined tables answer, state by state.
fn show<P: Plan>(rt: &HostRuntime, plan: &P) -> io::Result<()> {
    for s in 0..plan.states() {
        let marked = plan.marked(s);
        let first = plan.code(s, 0);
        let second = plan.code(s, 1);
        print!(rt; "joined, state {s}: marked {marked}, codes {first} {second}, steps")?;
        for i in 0..plan.step_count(s) {
            let next = plan.step(s, i);
            print!(rt; " {next}")?;
        }
        println!(rt; "")?;
    }
    Ok(())
}

// The two tables of these files side by side, which every two files here can be.
fn joined(first: &[u8], second: &[u8]) -> Option<Joined<Table, Table>> {
    Joined::join(Table::open(first).ok()?, Table::open(second).ok()?).ok()
}

fn show_joined(rt: &HostRuntime) -> io::Result<()> {
    let first = make::table_of(rt.alloc(), &[TableRow(7, 0, 1), TableRow(2, 0, 0)])?;
    let second = make::table_of(
        rt.alloc(),
        &[TableRow(7, 1, 2), TableRow(2, 0, 0), TableRow(1, 0, 0)],
    )?;
    match joined(&first, &second) {
        Some(joined) => show(rt, &joined),
        None => Ok(()),
    }
}

pub(crate) fn run(rt: &HostRuntime) -> io::Result<()> {
    vet_cases(rt)?;
    join_cases(rt)?;
    show_joined(rt)
}
