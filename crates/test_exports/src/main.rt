// Calls each function that C and Rust call, on the jobs and rows of the file stdin, and prints what it answered and what
// was lent afterwards. What it has to print stands in the file stdout beside src/, which make.py computes from the page.
#![tactic(auto)]

mod blocks;
mod calls;
mod live;
mod shown;
mod states;
mod writes;

use std::io;

// Most bytes of a job and of the caller's rows, and most numbers lent for answers, or bytes for a file.
pub const JOB_ROOM: usize = 512;

pub const ROWS_ROOM: usize = 256;

pub const LENT_ROOM: usize = 512;

// A place that no refusal here has, and a size that no file here has: it stands behind the pointers before each call.
pub const NOWHERE: usize = 99999;

fn main(rt: HostRuntime) -> io::Result<()> {
    blocks::call_all(&rt, &mut rt.stdin())
}
