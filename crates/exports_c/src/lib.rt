// What C calls: each function of the crate `exports` under its name for C, with the same promise.
// Kept: the C interface: each of the nine has its own name for C, which no generic function can have
#![tactic(auto)]

ghost use Rattle.std.specs.Prelude.{◌≡◌};
ghost use Rattle.constants.specs.Refusals.{refusal as refusal_at};
ghost use Rattle.job.specs.Load.{loaded_of, refusal_of};
ghost use Rattle.job.specs.Jobs.{ran_of};
ghost use Rattle.exports.specs.Calls.{told, told_by, callers_rows, slot_told, slot_answered};
ghost use Rattle.exports.specs.Steps.{lent, start_told, started_lent, next_told, next_of};
ghost use Rattle.power.specs.Gain.{triple};
ghost use Rattle.job_file.specs.Numbers.{settings_bytes_of, record_bytes_of};
ghost use Rattle.job_writer.specs.Writing.{placed, made_of};
ghost use Rattle.exports.specs.Writes.{file_told, written_by, part_told, part_by};

// Whether a job is taken.
#[unsafe(no_mangle)]
pub extern "C" fn uplink_refusal(job: &[u8], place: &mut usize) -> u8
    ensures { refusal_at result place.new ≡ refusal_of (loaded_of job.now) }
{
    exports::uplink_refusal(job, place)
}

// Every row of a job. Afterwards the buffer has the answers of the accepted rows, then what stood there.
#[unsafe(no_mangle)]
pub extern "C" fn uplink_run(job: &[u8], answers: &mut [i32], place: &mut usize) -> u8
    ensures { told result place.new answers.new ≡
        told_by (ran_of job.now answers.old) }
{
    exports::uplink_run(job, answers, place)
}

// Rows of the caller's own, from the start of a job: its settings and its gaps hold, its own rows do not.
#[unsafe(no_mangle)]
pub extern "C" fn uplink_rows(job: &[u8], rows: &[u8], answers: &mut [i32], place: &mut usize) -> u8
    ensures { told result place.new answers.new ≡
        told_by (callers_rows job.now rows.now answers.old) }
{
    exports::uplink_rows(job, rows, answers, place)
}

// The ids that put a slot of a job into an uplink gap, and into a downlink gap. Where the job is refused, none.
#[unsafe(no_mangle)]
pub extern "C" fn uplink_slot(
    job: &[u8],
    slot: u32,
    uplink: &mut u8,
    downlink: &mut u8,
    place: &mut usize,
) -> u8
    ensures { slot_told result place.new uplink.new downlink.new ≡
        slot_answered job.now slot }
{
    exports::uplink_slot(job, slot, uplink, downlink, place)
}

// The state before row 0 of a job, as docs/STATE.md orders its numbers. Where the job is refused, or where the numbers
// are more or fewer than a state has, numbers and level are as they were.
#[unsafe(no_mangle)]
pub extern "C" fn uplink_start(
    job: &[u8],
    numbers: &mut [i64],
    level: &mut f64,
    place: &mut usize,
) -> u8
    ensures { start_told result place.new (lent numbers.new level.new) ≡
        started_lent job.now (lent numbers.old level.old) }
{
    exports::uplink_start(job, numbers, level, place)
}

// Rows of the caller's own after a state of a job, one row or many. Afterwards numbers and level are the state after
// the accepted rows, and the buffer has their answers; where all of it is refused, everything is as it was.
#[unsafe(no_mangle)]
pub extern "C" fn uplink_next(
    job: &[u8],
    numbers: &mut [i64],
    level: &mut f64,
    rows: &[u8],
    answers: &mut [i32],
    place: &mut usize,
) -> u8
    ensures { next_told result place.new
        (lent numbers.new level.new) answers.new ≡
        next_of job.now rows.now
        (lent numbers.old level.old) answers.old }
{
    exports::uplink_next(job, numbers, level, rows, answers, place)
}

// The file that a kind and three parts make, from the first lent byte on; its size is left behind a pointer.
#[unsafe(no_mangle)]
pub extern "C" fn uplink_write(
    kind: u8,
    settings: &[u8],
    records: &[u8],
    rows: &[u8],
    file: &mut [u8],
    size: &mut usize,
    place: &mut usize,
) -> u8
    ensures { file_told result place.new size.new file.new ≡
        written_by (made_of kind settings.now records.now rows.now
        file.old) }
{
    exports::writing::uplink_write(kind, settings, records, rows, file, size, place)
}

// The twelve bytes of settings and their triple.
#[unsafe(no_mangle)]
pub extern "C" fn uplink_settings_bytes(
    pca: u8,
    step: u8,
    itp: u8,
    rpp: u8,
    links: u8,
    betac: u8,
    betad: u8,
    channels: u8,
    maximum: i8,
    start: i32,
    bytes: &mut [u8],
    place: &mut usize,
) -> u8
    ensures { part_told result place.new bytes.new ≡
        part_by (placed (settings_bytes_of
        (record { pca = pca; step = step; itp = itp; rpp = rpp; links = links; maximum = maximum; start = start })
        (triple betac betad channels)) bytes.old) }
{
    exports::writing::uplink_settings_bytes(
        pca, step, itp, rpp, links, betac, betad, channels, maximum, start, bytes, place,
    )
}

// The twelve bytes of a gap record.
#[unsafe(no_mangle)]
pub extern "C" fn uplink_record_bytes(
    id: u8,
    direction: u8,
    tgsn: u8,
    tgl1: u8,
    tgl2: u8,
    tgpl: u8,
    tgprc: u16,
    tgd: u16,
    start: u16,
    bytes: &mut [u8],
    place: &mut usize,
) -> u8
    ensures { part_told result place.new bytes.new ≡
        part_by (placed (record_bytes_of (record {
          id = id;
          direction = direction;
          tgsn = tgsn;
          tgl1 = tgl1;
          tgl2 = tgl2;
          tgpl = tgpl;
          tgprc = tgprc;
          tgd = tgd;
          start = start;
        })) bytes.old) }
{
    exports::writing::uplink_record_bytes(
        id, direction, tgsn, tgl1, tgl2, tgpl, tgprc, tgd, start, bytes, place,
    )
}
