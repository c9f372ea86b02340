// Runs the published cases over the library and prints what it answers, then cases that were drawn, then whole jobs.
// What it has to print stands in the file stdout beside src/.
#![tactic(auto)]

mod cases;
mod commands_listed;
mod jobs_listed;
mod levels_listed;
mod shown;

use std::io;

fn main(rt: HostRuntime) -> io::Result<()> {
    levels_listed::show(&rt)?;
    commands_listed::show(&rt)?;
    cases::show(&rt, &mut rt.stdin())
}
