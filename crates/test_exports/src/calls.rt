// The functions that take no state.
use crate::shown;
use std::io;

pub fn refusal(rt: &impl Print, job: &[u8]) -> io::Result<()> {
    shown::told(rt, "refusal", |place| exports::uplink_refusal(job, place))?;
    println!(rt)
}

pub fn run(rt: &impl Print, job: &[u8], answers: &mut [i32]) -> io::Result<()> {
    shown::told(rt, "run", |place| exports::uplink_run(job, answers, place))?;
    shown::lent(rt, "answers", answers)
}

pub fn rows(rt: &impl Print, job: &[u8], rows: &[u8], answers: &mut [i32]) -> io::Result<()> {
    shown::told(
        rt,
        "rows",
        |place| exports::uplink_rows(job, rows, answers, place),
    )?;
    shown::lent(rt, "answers", answers)
}

// The first slots, and the last that a number of 32 bits can name.
pub fn slots(rt: &impl Print, job: &[u8]) -> io::Result<()> {
    print!(rt; "slots")?;
    for k in 0..64 {
        slot(rt, job, k)?;
    }
    slot(rt, job, u32::MAX)?;
    println!(rt)
}

// The ids that put it into an uplink gap and into a downlink gap, or the refusal of the job.
fn slot(rt: &impl Print, job: &[u8], k: u32) -> io::Result<()> {
    let mut place = crate::NOWHERE;
    let mut uplink = 99;
    let mut downlink = 99;
    let number = exports::uplink_slot(job, k, &mut uplink, &mut downlink, &mut place);
    print!(rt; " {uplink} {downlink}")?;
    if 0 < number {
        print!(rt; " refused {number} at {place}")?;
    }
    Ok(())
}
