// The listing of a job: its last line, its length and its digest.
use crate::digest::{self, Digest};
use listing::Stand;
use std::io;

// The room for a piece.
const PIECE_ROOM: usize = 65536;

// The pieces so far: how many bytes they have, their digest, and how many bytes the last of them has.
#[derive(Clone, Copy)]
struct Pieces {
    length: u64,
    digest: Digest,
    last: usize,
}

pub fn show(rt: &impl Print, job: &[u8]) -> io::Result<()> {
    let mut out = [0u8; PIECE_ROOM];
    let all = whole(job, &mut out);
    let piece = out.get(..all.last).unwrap_or(&[]);
    let line = std::str::from_utf8(last_line(piece)).unwrap_or("no text");
    print!(rt; "{line}, {} {}", all.length, all.digest)
}

// So many pieces are always enough, and a buffer that is too short is never met here.
fn whole(job: &[u8], out: &mut [u8]) -> Pieces {
    let mut all = Pieces {
        length: 0,
        digest: digest::NOTHING,
        last: 0,
    };
    let mut stand = Stand::Before;
    for _ in 0..constants::PIECES_MOST {
        let Ok((n, next)) = listing::piece(job, stand, out) else {
            break;
        };
        let Some(piece) = out.get(..n) else {
            break;
        };
        all = Pieces {
            length: all.length.wrapping_add(n as u64),
            digest: all.digest.bytes(piece),
            last: n,
        };
        if matches!(next, Stand::Over) {
            break;
        }
        stand = next;
    }
    all
}

// The last line of a piece, without the line feed that ends it.
fn last_line(piece: &[u8]) -> &[u8] {
    let Some((_, lines)) = piece.split_last() else {
        return piece;
    };
    match lines.iter().rposition(|byte| *byte == b'\n') {
        Some(feed) => &lines[feed + 1..],
        None => lines,
    }
}
