// The functions that write: a file of parts that are cut from the job's bytes, and twelve bytes of numbers that are read
// from it. Bytes that a job lacks are 0.
use crate::shown;
use std::io;

// Most bytes lent for settings and for a record, which have fewer.
const ROOM: usize = 16;

// Where a job keeps how many bytes its records have.
const RECORDS_SIZE: usize = 16;

// Where its settings begin, and its records.
const SETTINGS: usize = constants::CONTENTS_BYTES;

const RECORDS: usize = SETTINGS + constants::SETTINGS_BYTES;

// Each call has bytes of its own, each 7 before.
pub fn test(rt: &impl Print, job: &[u8], lent: usize, start: i32) -> io::Result<()> {
    let mut bytes = [7; crate::LENT_ROOM];
    file(rt, job, &mut bytes[..lent.min(crate::LENT_ROOM)])?;
    let few = lent.min(ROOM);
    let mut first = [7; ROOM];
    settings(rt, job, start, &mut first[..few])?;
    let mut second = [7; ROOM];
    record(rt, job, &mut second[..few])
}

// The first bytes, so many or all, and those after them.
fn cut(bytes: &[u8], n: usize) -> (&[u8], &[u8]) {
    let n = n.min(bytes.len());
    bytes.split_at(n)
}

// So many bytes from a place on.
fn read<const N: usize>(job: &[u8], at: usize) -> [u8; N] {
    let (_, rest) = cut(job, at);
    let mut bytes = [0; N];
    for (byte, x) in bytes.iter_mut().zip(rest) {
        *byte = *x;
    }
    bytes
}

// Of the job's contents only the kind and the size of its records are taken: the writer makes its own.
fn file(rt: &impl Print, job: &[u8], lent: &mut [u8]) -> io::Result<()> {
    let kind = job.first().copied().unwrap_or(1);
    let (_, bodies) = cut(job, SETTINGS);
    let (settings, rest) = cut(bodies, constants::SETTINGS_BYTES);
    let size = u16::from_le_bytes(read::<2>(job, RECORDS_SIZE));
    let (records, rows) = cut(rest, usize::from(size));
    let mut size = crate::NOWHERE;
    shown::told(rt, "write", |place| {
        exports::writing::uplink_write(kind, settings, records, rows, lent, &mut size, place)
    })?;
    print!(rt; ", size {size}")?;
    shown::lent(rt, "bytes", lent)
}

fn settings(rt: &impl Print, job: &[u8], start: i32, lent: &mut [u8]) -> io::Result<()> {
    let [pca, step, itp, rpp, links, betac, betad, channels, maximum] = read::<9>(job, SETTINGS);
    let maximum = i8::from_le_bytes([maximum]);
    shown::told(rt, "settings", |place| {
        exports::writing::uplink_settings_bytes(
            pca, step, itp, rpp, links, betac, betad, channels, maximum, start, lent, place,
        )
    })?;
    shown::lent(rt, "bytes", lent)
}

fn record(rt: &impl Print, job: &[u8], lent: &mut [u8]) -> io::Result<()> {
    let [
        id,
        direction,
        tgsn,
        tgl1,
        tgl2,
        tgpl,
        b6,
        b7,
        b8,
        b9,
        b10,
        b11,
    ] = read::<12>(job, RECORDS);
    let tgprc = u16::from_le_bytes([b6, b7]);
    let tgd = u16::from_le_bytes([b8, b9]);
    let start = u16::from_le_bytes([b10, b11]);
    shown::told(rt, "record", |place| {
        exports::writing::uplink_record_bytes(
            id, direction, tgsn, tgl1, tgl2, tgpl, tgprc, tgd, start, lent, place,
        )
    })?;
    shown::lent(rt, "bytes", lent)
}
