// Blocks from standard input: a head, the bytes of a job, then those of the caller's rows. Before what a block's calls
// answer stands a line with its number, after the last one a line with how many there were.
ghost use Rattle.std.specs.Prelude.{◌≤◌};
ghost use Rattle.test_exports.specs.declared.TheConstants.{LENT_ROOM};

use crate::states::Change;
use crate::{calls, live, states, writes};
use std::io;
use std::io::Read;

// Bytes of a head.
const HEAD: usize = 12;

// No run reaches so many blocks.
const BLOCKS_MOST: u64 = 1000000;

// What is called. A number is that of bytes 8 and 9, or where byte 10 is 1 it with these bits turned over, below 0.
#[derive(Clone, Copy)]
enum Asked {
    // where byte 6 is 0: every function, with the number for the start power that is made into bytes
    Every(i32),
    // the functions of a state: byte 6 says how many numbers are lent for it, and byte 7 what is changed, to the number
    State(usize, Change),
}

// What a head says. Numbers are little-endian.
#[derive(Clone, Copy)]
struct Head {
    // bytes 0 and 1: how many bytes the job has
    job: usize,
    // bytes 2 and 3: how many the rows have
    rows: usize,
    // bytes 4 and 5: how many numbers are lent for answers, and how many bytes for a file
    lent: usize,
    asked: Asked,
}

impl Head {
    fn read(bytes: [u8; HEAD]) -> Head {
        let [
            job_low,
            job_high,
            rows_low,
            rows_high,
            lent_low,
            lent_high,
            count,
            at,
            low,
            high,
            below,
            _,
        ] = bytes;
        let size = i32::from(u16::from_le_bytes([low, high]));
        let number = if 0 < below { !size } else { size };
        Head {
            job: usize::from(u16::from_le_bytes([job_low, job_high])),
            rows: usize::from(u16::from_le_bytes([rows_low, rows_high])),
            lent: usize::from(u16::from_le_bytes([lent_low, lent_high])),
            asked: match count {
                0 => Asked::Every(number),
                _ => Asked::State(usize::from(count), Change::read(at, number)),
            },
        }
    }
}

pub fn call_all(rt: &impl Print, input: &mut impl Read) -> io::Result<()> {
    for blocks in 0..BLOCKS_MOST {
        if !call_next(rt, input, blocks)? {
            return println!(rt; "blocks {blocks}");
        }
    }
    println!(rt; "blocks {BLOCKS_MOST}")
}

// Answers whether there was a whole block.
fn call_next(rt: &impl Print, input: &mut impl Read, number: u64) -> io::Result<bool> {
    let mut bytes = [0; HEAD];
    if reading::read_input(input, &mut bytes)? < HEAD {
        return Ok(false);
    }
    println!(rt; "block {number}")?;
    let head = Head::read(bytes);
    let mut job = [0; crate::JOB_ROOM];
    let mut rows = [0; crate::ROWS_ROOM];
    let Some(job) = read_part(input, &mut job, head.job)? else {
        return Ok(false);
    };
    let Some(rows) = read_part(input, &mut rows, head.rows)? else {
        return Ok(false);
    };
    if crate::LENT_ROOM < head.lent {
        return Ok(false);
    }
    call(rt, job, rows, head)?;
    Ok(true)
}

// So many bytes from the input, where it has them and the room does.
fn read_part<'a>(
    input: &mut impl Read,
    room: &'a mut [u8],
    n: usize,
) -> io::Result<Option<&'a [u8]>> {
    if room.len() < n {
        return Ok(None);
    }
    let part = &mut room[..n];
    if reading::read_input(input, part)? < n {
        return Ok(None);
    }
    Ok(Some(part))
}

// Each call that fills answers has numbers of its own, each 7 before.
// Kept: where to write, and the two parts that each call takes; a struct of the three would be taken apart at once.
fn call(rt: &impl Print, job: &[u8], rows: &[u8], head: Head) -> io::Result<()>
    requires { head.lent ≤ LENT_ROOM }
{
    let mut space = [7; crate::LENT_ROOM];
    let answers = &mut space[..head.lent];
    match head.asked {
        Asked::State(count, change) => states::test(rt, job, rows, count, change, answers),
        Asked::Every(start) => {
            calls::refusal(rt, job)?;
            calls::run(rt, job, answers)?;
            answers.fill(7);
            calls::rows(rt, job, rows, answers)?;
            calls::slots(rt, job)?;
            live::test(rt, job, rows)?;
            writes::test(rt, job, head.lent, start)
        }
    }
}
