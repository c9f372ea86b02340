// Lists job after job from standard input by the code of `reference`, the libraries `reading` and `printing` (make.py
// makes the files stdin and stdout).
#![tactic(auto)]

mod jobs;

use std::io;

fn main(rt: HostRuntime) -> io::Result<()> {
    jobs::list_all(&mut rt.stdout(), &mut rt.stdin())
}
