// A job's text on standard input, the job's bytes on standard output. All that matters is in the library; this reads,
// composes and writes. What stopped it stands on standard error, with nothing on standard output; where it could not
// read or write, it ends with the error.
#![tactic(auto)]

use std::io;

// A byte more than a text may have is read, so that a longer one is seen to be too long. A text of which some could not
// be read is no text: nothing is written.
// DECISIONS: program-reads-one-more, program-read-fails
fn main(rt: HostRuntime) -> io::Result<()> {
    let mut space = room();
    match reading::read_input(&mut rt.stdin(), &mut space) {
        Ok(n) => compose(&rt, &space[..n]),
        Err(e) => {
            eprintln!(rt; "compose: the text could not be read")?;
            Err(e)
        }
    }
}

// The room for a text. It is a function of its own because the prover cannot count so many bytes where they are used.
fn room() -> [u8; constants::TEXT_MOST + 1] {
    [0u8; constants::TEXT_MOST + 1]
}

fn compose(rt: &(impl Print + Eprint), text: &[u8]) -> io::Result<()> {
    let mut file = [0u8; constants::FILE_MOST];
    match compose_text::compose(text, &mut file) {
        Ok(size) => write_start(rt, &file, size),
        Err(error) => eprintln!(rt; "{error}"),
    }
}

// Writes the first bytes of a buffer. No file has more bytes than its buffer.
fn write_start(rt: &(impl Print + Eprint), file: &[u8], size: usize) -> io::Result<()> {
    if file.len() < size {
        return Err(io::Error::other("a file is longer than its room"));
    }
    let written = rt.write_all(&file[..size]);
    if written.is_err() {
        eprintln!(rt; "compose: the job could not be written to its end")?;
    }
    written
}
