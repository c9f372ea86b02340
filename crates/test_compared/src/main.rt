// Reads block after block from standard input, a job, parts or a text each with what is asked of it, and writes a line
// for each. What it has to write for the blocks in the file stdin stands in the file stdout beside it.
#![tactic(auto)]

mod answers;
mod blocks;
mod changed;
mod digest;
mod heads;
mod listings;
mod offers;
mod refused;
mod written;

use std::io;

// A file may be somewhat longer than any that is taken, and so may the numbers that are lent for answers.
pub const FILE_ROOM: usize = constants::FILE_MOST + 64;

pub const LENT_MOST: usize = constants::ANSWER_NUMBERS * constants::ROWS_MOST as usize + 64;

fn main(rt: HostRuntime) -> io::Result<()> {
    blocks::answer(&rt, &mut rt.stdin())
}
