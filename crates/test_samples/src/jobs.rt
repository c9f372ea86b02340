// Jobs from standard input, each after its number of bytes in four bytes, the lowest first. Where that is more than there
// is room for, the job is read as `reference` reads: until the room is full or the input ends. Before a listing stands a
// line with the job's number and its size, after the last one a line with the number of jobs.
use std::io;
use std::io::{Read, Write};

// As in `reference`, a byte more than a job may have.
const ROOM: usize = constants::FILE_MOST + 1;

// No run reaches so many jobs.
const JOBS_MOST: u64 = 1000000;

// What became of a job.
#[derive(Clone, Copy)]
enum Job {
    Listed,
    // there was none: the input ended after the job before
    Over,
    // the input ended within it
    CutOff,
}

pub fn list_all(to: &mut impl Write, input: &mut impl Read) -> io::Result<()> {
    for jobs in 0..JOBS_MOST {
        match list_next(to, input, jobs)? {
            Job::Listed => {}
            Job::Over => return writeln!(to, "jobs {jobs}"),
            Job::CutOff => return writeln!(to, "cut off after {jobs} jobs"),
        }
    }
    writeln!(to, "cut off after {JOBS_MOST} jobs")
}

fn list_next(to: &mut impl Write, input: &mut impl Read, number: u64) -> io::Result<Job> {
    let mut size = [0; 4];
    match reading::read_input(input, &mut size)? {
        0 => Ok(Job::Over),
        1..=3 => Ok(Job::CutOff),
        _ => list(to, input, number, u32::from_le_bytes(size) as usize),
    }
}

fn list(to: &mut impl Write, input: &mut impl Read, number: u64, n: usize) -> io::Result<Job> {
    let mut space = [0; ROOM];
    let got = reading::read_input(input, &mut space[..n.min(ROOM)])?;
    if got < n && n <= ROOM {
        return Ok(Job::CutOff);
    }
    let job = &space[..got];
    writeln!(to, "job {number}: {} bytes", job.len())?;
    printing::print(to, job)?;
    Ok(Job::Listed)
}
