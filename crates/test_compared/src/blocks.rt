// Blocks from standard input: the head, then the bytes of the job, of the parts or of the text. No head makes this read
// or write outside its buffers.
ghost use Rattle.std.specs.Prelude.{◌≤◌};
ghost use Rattle.test_compared.specs.declared.TheConstants.{FILE_ROOM};

use crate::heads::{Asked, HEAD_BYTES, Head, Marks, Source};
use crate::{FILE_ROOM, answers, heads, written};
use std::io;
use std::io::Read;

// Most bytes of a text, or of three parts, and few of them.
const TEXT_ROOM: usize = 262144;

const TEXT_FEW: usize = 4096;

// Why a block is not answered.
#[derive(Drop)]
enum Stop {
    // there was none: the input ended after the block before
    Over,
    // the input ended within it
    CutOff,
    // its head is beyond the limits
    Unreadable,
    Failed(io::Error),
}

impl From<io::Error> for Stop {
    fn from(e: io::Error) -> Stop {
        Stop::Failed(e)
    }
}

// Block after block, and a last line that tells how many were answered. No run reaches the bound.
pub fn answer(rt: &impl Print, input: &mut impl Read) -> io::Result<()> {
    for jobs in 0..1000000000000u64 {
        match next(rt, input) {
            Ok(()) => {}
            Err(Stop::Over) => return println!(rt; "jobs {jobs}"),
            Err(Stop::CutOff) => return println!(rt; "cut off after {jobs} jobs"),
            Err(Stop::Unreadable) => return println!(rt; "unreadable block after {jobs} jobs"),
            Err(Stop::Failed(e)) => return Err(e),
        }
    }
    println!(rt; "stopped after 1000000000000 jobs")
}

// The next block: its head, and what that asks for.
fn next(rt: &impl Print, input: &mut impl Read) -> Result<(), Stop> {
    let mut head = [0u8; HEAD_BYTES];
    match reading::read_input(input, &mut head)? {
        0 => Err(Stop::Over),
        HEAD_BYTES => asked(rt, input, heads::read(&head)),
        _ => Err(Stop::CutOff),
    }
}

// Kept: where to write, what to read from, and what was read; a struct of the three would be taken apart at once.
fn asked(rt: &impl Print, input: &mut impl Read, head: Head) -> Result<(), Stop> {
    match head.asked {
        Asked::Listing(marks) => list(rt, input, head, marks),
        Asked::File(source) => write(rt, input, head, source),
    }
}

// A job has more bytes than a file may have, and more numbers are lent than a file can ask for, but no more than this.
fn list(rt: &impl Print, input: &mut impl Read, head: Head, marks: Marks) -> Result<(), Stop> {
    if crate::LENT_MOST < head.lent {
        return Err(Stop::Unreadable);
    }
    let mut space = [0u8; FILE_ROOM];
    let job = space.get_mut(..head.length).ok_or(Stop::Unreadable)?;
    fill(input, job)?;
    answers::show(rt, job, head.lent, marks)?;
    Ok(())
}

// Parts may have more bytes than a file may have, and a text many more, but no more than this. Most have few, and a
// small space is cleared sooner.
fn write(rt: &impl Print, input: &mut impl Read, head: Head, source: Source) -> Result<(), Stop> {
    if FILE_ROOM < head.lent {
        return Err(Stop::Unreadable);
    }
    if head.length <= TEXT_FEW {
        let mut space = [0u8; TEXT_FEW];
        return write_read(rt, input, &mut space[..head.length], head.lent, source);
    }
    let mut space = [0u8; TEXT_ROOM];
    let bytes = space.get_mut(..head.length).ok_or(Stop::Unreadable)?;
    write_read(rt, input, bytes, head.lent, source)
}

// Reads parts or a text, and answers them with so many bytes lent.
fn write_read(
    rt: &impl Print,
    input: &mut impl Read,
    bytes: &mut [u8],
    lent: usize,
    source: Source,
) -> Result<(), Stop>
    requires { lent ≤ FILE_ROOM }
{
    fill(input, bytes)?;
    written::show(rt, bytes, source, lent)?;
    Ok(())
}

// Reads as many bytes as the space has.
fn fill(input: &mut impl Read, space: &mut [u8]) -> Result<(), Stop> {
    if reading::read_input(input, space)? < space.len() {
        return Err(Stop::CutOff);
    }
    Ok(())
}
