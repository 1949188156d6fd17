// Tries the file kinds at their edges, vetting and joining, rules and lists of calls. Each line has what was tried, the answer that is expected and the one that came.
#![tactic(auto)]

mod calls;
mod cases;
mod make;
mod trial;
mod vettings;

use std::io;

fn main(rt: HostRuntime) -> io::Result<()> {
    trial::run(&rt, &cases::DRAWINGS)?;
    trial::run(&rt, &cases::TABLES)?;
    vettings::run(&rt)?;
    calls::run(&rt)
}
