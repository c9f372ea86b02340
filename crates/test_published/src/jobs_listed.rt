// Jobs, each described by a block: the first bytes of the file stand from byte 16 on, as many as byte 4 says; then the
// row in bytes 0 and 1 is repeated, and the last row is that in bytes 2 and 3. Bytes 8 to 10 are the length of the
// file. Byte 11 says what is asked, with byte 7 for a size.
use crate::cases::BLOCK;
use crate::shown;
use listing::Stand;
use row_rules::Ran;
use row_values::Row;
use std::io;

// Most bytes of a file, a few more than a job may have.
const FILE_ROOM: usize = 65600;

// Most bytes lent for a piece.
const PIECE_ROOM: usize = 97920;

pub fn show(rt: &impl Print, b: &[u8; BLOCK]) -> io::Result<()> {
    let mut space = [0; FILE_ROOM];
    let size = u32::from_le_bytes([b[8], b[9], b[10], 0]) as usize;
    let file = &mut space[..size.min(FILE_ROOM)];
    fill(b, file);
    asked(rt, b, file)
}

// What is no part of the first bytes or of the last row repeats the row. The file may be shorter than either.
fn fill(b: &[u8; BLOCK], file: &mut [u8]) {
    let n = file.len();
    let (first, rest) = file.split_at_mut(n.min(usize::from(b[4])));
    first.copy_from_slice(&b[16..16 + first.len()]);
    let n = rest.len();
    let (rows, last) = rest.split_at_mut(n.saturating_sub(2));
    for (k, byte) in rows.iter_mut().enumerate() {
        *byte = b[k % 2];
    }
    last.copy_from_slice(&b[4 - last.len()..4]);
}

// 0 the listing, 1 its last piece alone, 2 a run with a lent buffer of byte 7's numbers, 3 a step after a state.
fn asked(rt: &impl Print, b: &[u8; BLOCK], job: &[u8]) -> io::Result<()> {
    match b[11] {
        0 => {
            println!(rt)?;
            list(rt, job, true, b[7])
        }
        1 => {
            print!(rt; " ")?;
            list(rt, job, false, b[7])
        }
        2 => lend(rt, job, b[7]),
        _ => step(rt, b, job),
    }
}

// The pieces of a listing, all or the last alone, each written into so many times 384 bytes, or for 1 and for none into
// the least that a piece may have. A piece has a row at least, or is the first or the last.
fn list(rt: &impl Print, job: &[u8], whole: bool, lent: u8) -> io::Result<()> {
    let mut space = [0; PIECE_ROOM];
    let room = if lent < 2 {
        constants::PIECE_LEAST
    } else {
        384 * usize::from(lent)
    };
    let out = &mut space[..room];
    let mut stand = Stand::Before;
    for _ in 0..job.len() / 2 + 3 {
        let Ok((n, next)) = listing::piece(job, stand, out) else {
            return Ok(());
        };
        let Some(piece) = out.get(..n) else {
            return Ok(());
        };
        if whole | matches!(next, Stand::Over) {
            rt.write_all(piece)?;
        }
        stand = next;
    }
    Ok(())
}

// What a run answers with so many numbers lent, each 7 before, and all of them afterwards.
fn lend(rt: &impl Print, job: &[u8], lent: u8) -> io::Result<()> {
    let mut answers = [7; 255];
    let answers = &mut answers[..usize::from(lent)];
    match job::run(job, answers) {
        Ran::Done(_) => print!(rt; " done")?,
        Ran::Stopped(_, r) | Ran::Refused(r) => shown::refusal(rt, r)?,
    }
    print!(rt; ",")?;
    for n in answers {
        print!(rt; " {n}")?;
    }
    println!(rt)
}

// The row in bytes 0 and 1 after the state before row 0, but with so many rows as bytes 12 and 13 say, and a power on
// one side of an end of its range.
fn step(rt: &impl Print, b: &[u8; BLOCK], job: &[u8]) -> io::Result<()> {
    let Ok(mut state) = job::start(job) else {
        return Ok(());
    };
    state.row = u32::from(u16::from_le_bytes([b[12], b[13]]));
    state.power = power(b[7]);
    let row = Row {
        commands: b[0],
        pilots: b[1],
    };
    match job::step(job, state, row) {
        Ok(_) => print!(rt; " taken")?,
        Err(r) => shown::refusal(rt, r)?,
    }
    println!(rt)
}

fn power(which: u8) -> i32 {
    match which {
        0 => -9601,
        1 => -9600,
        2 => 2112,
        _ => 2113,
    }
}
