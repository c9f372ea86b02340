// The reference: a job on standard input, its listing on standard output. All that matters is in the libraries `reading`
// and `printing`; this hands them the input and the output. Where it cannot read or write, standard error says so, and
// the program ends with the error.
#![tactic(auto)]

use std::io;
use std::io::Write;

// A byte more than a job may have is read, so that a longer one is seen to be too long. A job of which some could not
// be read is no job: nothing is listed.
// DECISIONS: program-reads-one-more, program-read-fails
fn main(rt: HostRuntime) -> io::Result<()> {
    let mut space = [0u8; constants::FILE_MOST + 1];
    match reading::read_input(&mut rt.stdin(), &mut space) {
        Ok(n) => list(&rt, &mut rt.stdout(), &space[..n]),
        Err(e) => {
            eprintln!(rt; "reference: the job could not be read")?;
            Err(e)
        }
    }
}

fn list(rt: &impl Eprint, to: &mut impl Write, job: &[u8]) -> io::Result<()> {
    let listed = printing::print(to, job);
    if listed.is_err() {
        eprintln!(rt; "reference: the listing could not be written to its end")?;
    }
    listed
}
