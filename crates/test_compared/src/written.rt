// Parts that are written and texts that are composed: what is answered, every lent byte afterwards, and, where a file
// is written, its parts as a load finds them and what these give when they are written again.
ghost use Rattle.std.specs.Prelude.{◌≤◌};
ghost use Rattle.test_compared.specs.declared.TheConstants.{FILE_ROOM};

use crate::FILE_ROOM;
use crate::digest::Digest;
use crate::heads::{Cut, Source};
use crate::refused::Refused;
use compose_text::{ComposeError, Composed};
use ground::Refusal;
use std::io;

// The parts of a file.
#[derive(Clone, Copy)]
struct Parts<'a> {
    settings: &'a [u8],
    records: &'a [u8],
    rows: &'a [u8],
}

// A file is written into so many lent bytes, and its parts again into others, as many.
pub fn show(rt: &impl Print, bytes: &[u8], source: Source, count: usize) -> io::Result<()>
    requires { count ≤ FILE_ROOM }
{
    let mut space = [0u8; FILE_ROOM];
    let lent = &mut space[..count];
    number_bytes(lent);
    let made = make(bytes, source, lent);
    let digest = Digest::of(lent);
    match made {
        Ok(size) => {
            print!(rt; "file {size} {digest}")?;
            match lent.get(..size) {
                Some(file) => show_file(rt, file, count),
                None => println!(rt; " past the lent bytes"),
            }
        }
        Err(ComposeError::Refused(r)) => println!(rt; "{} {digest}", Refused(r)),
        Err(ComposeError::Unreadable(line)) => println!(rt; "line {line} unreadable {digest}"),
        Err(ComposeError::TooLong) => println!(rt; "input too long {digest}"),
    }
}

// Each byte is another than those beside it, so that one that is written, moved or left is seen.
fn number_bytes(lent: &mut [u8]) {
    let mut next = 7u8;
    for byte in lent {
        *byte = next;
        next = next.wrapping_add(31);
    }
}

// What the writer answers to parts, or the composer to a text.
fn make(bytes: &[u8], source: Source, lent: &mut [u8]) -> Composed {
    match source {
        Source::Parts(cut) => {
            write(cut.kind, cut_parts(bytes, cut), lent).map_err(ComposeError::Refused)
        }
        Source::Text => compose_text::compose(bytes, lent),
    }
}

// The parts that bytes are cut into. A part that the bytes are too few for has those that are left.
fn cut_parts(bytes: &[u8], cut: Cut) -> Parts<'_> {
    let (settings, others) = bytes.split_at(cut.settings.min(bytes.len()));
    let (records, rows) = others.split_at(cut.records.min(others.len()));
    Parts {
        settings,
        records,
        rows,
    }
}

// A file of this kind from its parts.
fn write(kind: u8, parts: Parts<'_>, lent: &mut [u8]) -> Result<usize, Refusal> {
    job_writer::write(kind, parts.settings, parts.records, parts.rows, lent)
}

// The parts of a file that is written, and the digest of all other bytes after they were written into them.
#[tactic(auto, unfolding(job::specs::Load::OnJob))]
fn show_file(rt: &impl Print, file: &[u8], count: usize) -> io::Result<()>
    requires { count ≤ FILE_ROOM }
{
    let Ok((_, bodies)) = job::load(file) else {
        return println!(rt; " not taken");
    };
    let parts = Parts {
        settings: &file[bodies.settings..bodies.records],
        records: &file[bodies.records..bodies.rows],
        rows: &file[bodies.rows..],
    };
    let mut space = [0u8; FILE_ROOM];
    let others = &mut space[..count];
    number_bytes(others);
    let _ = write(1, parts, others);
    println!(rt;
        " back {} {} {} again {}",
        Digest::of(parts.settings),
        Digest::of(parts.records),
        Digest::of(parts.rows),
        Digest::of(others)
    )
}
