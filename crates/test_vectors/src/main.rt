// Runs the filter over both sides of its edges and over long runs, and prints what
// it answers. What it has to print stands in the file stdout beside src/.
#![tactic(auto)]

mod edges;
mod runs;
mod shown;

use std::io;

fn main(rt: HostRuntime) -> io::Result<()> {
    edges::show(&rt)?;
    runs::show(&rt)
}
