// The listing of a job, written piece by piece to any writer.
#![tactic(auto)]

ghost use Rattle.std.specs.Prelude.{ℕ, ◌≡◌, ◌≤◌, ◌<◌, length, take, IfOk, OnOk, OnErr};
ghost use Rattle.std.specs.Io.KnownBytes.{Appends, Keeps};
ghost use Rattle.constants.specs.Sizes.{piece_least};
ghost use Rattle.listing.specs.Listing.{listing_of};
ghost use Rattle.listing.specs.Pieces.{part_of};
ghost use Rattle.printing.specs.Asks.{Begun};

use listing::Stand;
use std::io;
use std::io::{ErrorKind, Write};

// One write of some bytes, tried again where a signal interrupts it. Where it fails, the writer took none of them.
fn write_some<W: Write>(to: &mut W, bytes: &[u8]) -> io::Result<usize>
    requires { 0 < length bytes.now }
    ensures count { IfOk result (λ n. (0 < n) × (n ≤ length bytes.now)) }
    ensures written { IfOk result (λ n. Appends (W.contents to.old) (W.contents to.new)
        (take n bytes.now)) }
    ensures failed { OnErr result (Keeps (W.contents to.old) (W.contents to.new)) }
{
    for _ in 0..u64::MAX {
        match to.write(bytes) {
            // A writer that takes nothing has failed, with the error that the library gives where there is no room.
            Ok(0) => {
                let mut no_room: &mut [u8] = &mut [];
                no_room.write_all(bytes)?;
            }
            Ok(n) => return Ok(n),
            Err(e) => {
                if e.kind() != ErrorKind::Interrupted {
                    return Err(e);
                }
            }
        }
    }
    Err(io::Error::new(
        ErrorKind::TimedOut,
        "gave up reading or writing after 2^64 tries",
    ))
}

// Writes all the bytes, as the `write_all` of the language's library does, which doesn't say what was written where it
// fails: here it is a beginning of the bytes, and some are left.
fn write_whole<W: Write>(to: &mut W, bytes: &[u8]) -> io::Result<()>
    ensures written { OnOk result (Appends (W.contents to.old) (W.contents to.new) bytes.now) }
    ensures failed { OnErr result (Begun (W.contents to.old) (W.contents to.new) bytes.now) }
{
    let mut done = 0;
    // Kept: what is written so far grows by what each write takes, and no range or iterator counts so.
    while done < bytes.len() {
        let n = write_some(to, &bytes[done..])?;
        done += n;
    }
    Ok(())
}

// Writes the next piece, and answers where the listing stands after it.
fn print_piece<W: Write>(to: &mut W, job: &[u8], stand: Stand, room: &mut [u8]) -> io::Result<Stand>
    requires { piece_least ≤ length room.old }
    ensures next { IfOk result (λ next. next ≡ (part_of job.now stand (length room.old)).next) }
    ensures written { OnOk result (Appends (W.contents to.old) (W.contents to.new)
        (part_of job.now stand (length room.old)).text) }
    ensures failed { OnErr result (Begun (W.contents to.old) (W.contents to.new)
        (part_of job.now stand (length room.old)).text) }
{
    match listing::piece(job, stand, room) {
        Err(_) => Err(io::Error::other("a piece has no room")),
        Ok((n, next)) => {
            write_whole(to, &room[..n])?;
            Ok(next)
        }
    }
}

// Writes the listing of a job, or hands on the error of the write that failed: the writer then took a beginning of the
// listing, and never all of it. So many pieces are always enough, and so is the room for each.
pub fn print<W: Write>(to: &mut W, job: &[u8]) -> io::Result<()>
    ensures listed { OnOk result (Appends (W.contents to.old) (W.contents to.new) (listing_of job.now)) }
    ensures failed { OnErr result ((n : ℕ) × (n < length (listing_of job.now))
        × Appends (W.contents to.old) (W.contents to.new) (take n (listing_of job.now))) }
{
    let mut room = [0u8; constants::FILE_MOST];
    let mut stand = Stand::Before;
    for _ in 0..constants::PIECES_MOST {
        stand = print_piece(to, job, stand, &mut room)?;
        if let Stand::Over = stand {
            return Ok(());
        }
    }
    Err(io::Error::other("the listing has no end"))
}
