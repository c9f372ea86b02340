// Numbers lent that are more or fewer than a state has, or of which one is changed, or the level beside them: what is no
// state is refused, and everything that was lent stays as it was.
use crate::live::{Lent, ROOM};
use std::io;

// What is changed of a state that is lent.
#[derive(Clone, Copy)]
pub enum Change {
    // the number at this place, where there is one, to a number
    Number(usize, i32),
    // the level, to a number
    Level(i32),
    // the level, to what is no number
    NoLevel,
}

impl Change {
    // The place of a number, or 255 or 254 for the level.
    pub fn read(at: u8, number: i32) -> Change {
        match at {
            254 => Change::NoLevel,
            255 => Change::Level(number),
            _ => Change::Number(usize::from(at), number),
        }
    }
}

// A start with so many numbers lent, then a whole state that is changed, of which so many are lent.
pub fn test(
    rt: &impl Print,
    job: &[u8],
    rows: &[u8],
    count: usize,
    change: Change,
    answers: &mut [i32],
) -> io::Result<()> {
    if ROOM < count {
        return Ok(());
    }
    let mut few = Lent::new();
    few.start(rt, job, count)?;
    let mut whole = Lent::new();
    whole.start(rt, job, exports_state::STATE_NUMBERS)?;
    whole.change(change);
    whole.next(rt, job, count, rows, answers)
}
