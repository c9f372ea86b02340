// The line of a block: the listing, then what the marks of the head ask for.
ghost use Rattle.std.specs.Prelude.{◌≤◌};
ghost use Rattle.test_compared.specs.declared.TheConstants.{LENT_MOST};

use crate::digest::{self, Digest};
use crate::heads::Marks;
use crate::refused::Refused;
use crate::{LENT_MOST, changed, listings, offers};
use row_rules::Ran;
use row_state::State;
use std::io;

pub fn show(rt: &impl Print, job: &[u8], lent: usize, marks: Marks) -> io::Result<()>
    requires { lent ≤ LENT_MOST }
{
    listings::show(rt, job)?;
    if marks.steps {
        print!(rt; ", steps {}", steps(job))?;
    }
    if marks.lent {
        print!(rt; ", lent {}", lend(job, lent))?;
    }
    if let Some(change) = marks.change {
        match changed::offer(job, change) {
            Ok(()) => print!(rt; ", state taken")?,
            Err(r) => print!(rt; ", state {}", Refused(r))?,
        }
    }
    println!(rt;)
}

// The digest of every row of the file, offered by itself, or of the refusal of the file.
fn steps(job: &[u8]) -> Digest {
    match offers::offer(job, constants::ROWS_MOST as usize) {
        Ok(offered) => offered.digest,
        Err(r) => digest::NOTHING.refusal(r),
    }
}

// The digest of what a run answers with so many numbers lent, and of all of them afterwards. Each is another before, so
// that one that is written, moved or left is seen.
fn lend(job: &[u8], count: usize) -> Digest
    requires { count ≤ LENT_MOST }
{
    let mut numbers = [0i32; LENT_MOST];
    let lent = &mut numbers[..count];
    for (number, before) in lent.iter_mut().zip(1000000..) {
        *number = before;
    }
    let ran = job::run(job, lent);
    ran_digest(ran).numbers(lent)
}

// The refusal, of zeros where there is none, and the state.
fn ran_digest(ran: Ran) -> Digest {
    match ran {
        Ran::Done(st) => with_state(digest::NOTHING.word(0).word(0), st),
        Ran::Stopped(st, r) => with_state(digest::NOTHING.refusal(r), st),
        Ran::Refused(r) => digest::NOTHING.refusal(r),
    }
}

// Rows accepted, control power and what is withheld.
fn with_state(before: Digest, st: State) -> Digest {
    before.word(st.row).numbers(&[st.power, st.held])
}
