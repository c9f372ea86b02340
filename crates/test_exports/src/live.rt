// A live test: the start of a job, then each of the caller's rows by itself.
ghost use Rattle.std.specs.Prelude.{◌≤◌};
ghost use Rattle.test_exports.specs.declared.live.TheConstants.{ROOM};

use crate::shown;
use crate::states::Change;
use std::io;

// Room for more numbers than a state has.
pub const ROOM: usize = exports_state::STATE_NUMBERS + 3;

// What is lent for a state: numbers, of which a call is lent as many as it says, and a level, all of them 7 before.
#[derive(Drop)]
pub struct Lent {
    numbers: [i64; ROOM],
    level: f64,
}

impl Lent {
    // What is lent before any call.
    pub fn new() -> Lent {
        Lent {
            numbers: [7; ROOM],
            level: 7.0,
        }
    }

    // The start of a job.
    pub fn start(&mut self, rt: &impl Print, job: &[u8], count: usize) -> io::Result<()>
        requires { count ≤ ROOM }
    {
        let mut level = self.level;
        let numbers = &mut self.numbers[..count];
        shown::told(rt, "start", |place| {
            exports::uplink_start(job, numbers, &mut level, place)
        })?;
        self.level = level;
        println!(rt)?;
        shown::state(rt, &self.numbers[..count], level)
    }

    // Rows after the state.
    pub fn next(
        &mut self,
        rt: &impl Print,
        job: &[u8],
        count: usize,
        rows: &[u8],
        answers: &mut [i32],
    ) -> io::Result<()>
        requires { count ≤ ROOM }
    {
        let mut level = self.level;
        let numbers = &mut self.numbers[..count];
        shown::told(rt, "next", |place| {
            exports::uplink_next(job, numbers, &mut level, rows, answers, place)
        })?;
        self.level = level;
        shown::lent(rt, "answers", answers)?;
        shown::state(rt, &self.numbers[..count], level)
    }

    // One place of the state changed.
    pub fn change(&mut self, change: Change) {
        match change {
            Change::Number(at, value) => {
                if at < ROOM {
                    self.numbers[at] = i64::from(value);
                }
            }
            Change::Level(value) => self.level = f64::from(value),
            Change::NoLevel => self.level = f64::NAN,
        }
    }
}

// A refused row leaves everything as it was, and the next one is offered after the same state.
pub fn test(rt: &impl Print, job: &[u8], rows: &[u8]) -> io::Result<()> {
    let mut lent = Lent::new();
    lent.start(rt, job, exports_state::STATE_NUMBERS)?;
    for row in rows.chunks_exact(constants::ROW_BYTES) {
        let mut answers = [7; constants::ANSWER_NUMBERS];
        lent.next(rt, job, exports_state::STATE_NUMBERS, row, &mut answers)?;
    }
    Ok(())
}
