// Cases from standard input, a block of 384 bytes each. A block has records, settings and command bytes, shown with the
// answer of the check and for each slot a mark and a command; or it describes a job.
use crate::{jobs_listed, shown};
use gap_runs::Kind;
use gap_slots::Slot;
use std::io;
use std::io::Read;

// Bytes of a block.
pub const BLOCK: usize = 384;

// No run reaches so many blocks.
const BLOCKS_MOST: u32 = 1000000;

// Most slots of a block.
const SLOTS_MOST: u32 = 160;

// PCA, RPP, link sets, records, and a command byte for each slot.
#[derive(Clone, Copy)]
struct Case<'a> {
    pca: u8,
    rpp: u8,
    links: u8,
    records: &'a [u8],
    rows: &'a [u8],
}

// Block after block until the input ends.
pub fn show(rt: &impl Print, input: &mut impl Read) -> io::Result<()> {
    let mut b = [0; BLOCK];
    for _ in 0..BLOCKS_MOST {
        if reading::read_input(input, &mut b)? < BLOCK {
            return Ok(());
        }
        block(rt, &b)?;
    }
    Ok(())
}

// Byte 6 is 0 for records and 1 for a job.
fn block(rt: &impl Print, b: &[u8; BLOCK]) -> io::Result<()> {
    named(rt, b)?;
    if b[6] < 1 {
        return parts(rt, b);
    }
    jobs_listed::show(rt, b)
}

// Byte 5 is the length of the name, which stands from byte 256 on.
fn named(rt: &impl Print, b: &[u8; BLOCK]) -> io::Result<()> {
    let Some(name) = b[256..].get(..usize::from(b[5])) else {
        return Ok(());
    };
    rt.write_all(name)?;
    print!(rt; ":")
}

// PCA, RPP, link sets, how many bytes of records, how many slots; records from byte 8 on, command bytes from byte 96
// on.
fn parts(rt: &impl Print, b: &[u8; BLOCK]) -> io::Result<()> {
    let Some(records) = b[8..96].get(..usize::from(b[3])) else {
        return Ok(());
    };
    let Some(rows) = b[96..256].get(..usize::from(b[4])) else {
        return Ok(());
    };
    let case = Case {
        pca: b[0],
        rpp: b[1],
        links: b[2],
        records,
        rows,
    };
    walked(rt, case)
}

fn walked(rt: &impl Print, case: Case) -> io::Result<()> {
    match gap_records::check(case.records) {
        Ok(count) => println!(rt; " taken {count}")?,
        Err(r) => {
            shown::refusal(rt, r)?;
            println!(rt)?;
        }
    }
    if case.rows.is_empty() {
        return Ok(());
    }
    marks(rt, case)?;
    commands(rt, case)
}

// A mark for each slot, from slot 0 on.
fn marks(rt: &impl Print, case: Case) -> io::Result<()> {
    let mut run = gap_runs::start();
    for (k, _) in (0..SLOTS_MOST).zip(case.rows) {
        let slot = gap_slots::slot_at(case.records, k);
        let now = gap_runs::walk(run, slot);
        print!(rt; "{}", mark(slot, now.kind))?;
        run = now.run;
    }
    println!(rt)
}

// u, d and b for an uplink gap slot, a downlink gap slot and both; R and r for the resume slot and the recovery slots.
fn mark(slot: Slot, kind: Kind) -> char {
    match kind {
        Kind::Gap => gap_mark(slot),
        Kind::Resume => 'R',
        Kind::Recovery => 'r',
        Kind::Plain => '.',
    }
}

fn gap_mark(slot: Slot) -> char {
    if !gap_slots::opens_downlink(slot) {
        'u'
    } else if gap_slots::opens_uplink(slot) {
        'b'
    } else {
        'd'
    }
}

// A command for each slot.
fn commands(rt: &impl Print, case: Case) -> io::Result<()> {
    let mut run = gap_runs::start();
    let mut set = command_algorithms::fresh();
    for (row, bits) in (0..SLOTS_MOST).zip(case.rows.iter().copied()) {
        let slot = gap_slots::slot_at(case.records, row);
        let now = gap_runs::walk(run, slot);
        let down = gap_slots::opens_downlink(slot);
        let recovery = command::recovery_rule(case.rpp, now.kind);
        let command = command::command(case.pca, case.links, down, recovery, row, set, bits);
        print!(rt; "{}", shown::sign(command))?;
        set = command_algorithms::set_after(set, row, down, recovery, bits);
        run = now.run;
    }
    println!(rt)
}
