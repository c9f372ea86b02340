// What the maker of a bench set calls, from C by the crate `exports_c` or from Rust. A job, rows, answers and the numbers
// of a state are slices, each a pointer and a length to C. Every function answers with the number of a refusal, 0 where
// there is none, and leaves its place, 0 where there is none, behind the last pointer.
#![tactic(auto)]

pub mod writing;

ghost use Rattle.std.specs.Prelude.{◌≡◌, length};
ghost use Rattle.std.specs.Option.{unwrap_or};
ghost use Rattle.constants.specs.Refusals.{refusal as refusal_at, no_refusal};
ghost use Rattle.row_rules.specs.Runs.{refusal_by, ended};
ghost use Rattle.job_contents.specs.Contents.{Lies};
ghost use Rattle.job.specs.Load.{loaded_of, records_body, refusal_of};
ghost use Rattle.job.specs.Jobs.{ran_of};
ghost use Rattle.exports_state.specs.Packed.{state_numbers};
ghost use Rattle.exports.specs.Calls.{told, told_by, run_after, callers_rows, slot_told, slot_answered};
ghost use Rattle.exports.specs.Steps.{lent, lent_by, handed, start_handed, start_told, started_lent};
ghost use Rattle.exports.specs.Steps.{next_told, next_of};

use ground::Refusal;
use job_contents::Bodies;
use job_settings::Settings;
use row_rules::Ran;
use row_state::State;

// What is told where nothing is refused.
const NOTHING: Refusal = Refusal {
    number: 0,
    place: 0,
};

// The refusal of a run; none where all rows were taken.
#[tactic(auto, unfolding(row_rules::specs::Runs::refusal_by))]
fn refusal_of(ran: Ran) -> Option<Refusal>
    ensures { unwrap_or result no_refusal ≡ refusal_by ran }
{
    match ran {
        Ran::Done(_) => None,
        Ran::Stopped(_, r) => Some(r),
        Ran::Refused(r) => Some(r),
    }
}

// The number of a refusal, its place left behind the pointer.
// DECISIONS: refusals-none
fn leave(refusal: Option<Refusal>, place: &mut usize) -> u8
    ensures { refusal_at result place.new ≡ unwrap_or refusal no_refusal }
{
    let r = refusal.unwrap_or(NOTHING);
    *place = r.place;
    r.number
}

// All gap records of a job that is taken.
fn records_of(job: &[u8], b: Bodies) -> &[u8]
    requires { Lies job.now b }
    ensures { result.now ≡ records_body job.now b }
{
    &job[b.records..b.rows]
}

// Rows after a state of a job that is taken, with its triple and all its records.
fn run_after(job: &[u8], s: Settings, b: Bodies, st: State, rows: &[u8], answers: &mut [i32]) -> Ran
    requires { Lies job.now b }
    ensures { ended result answers.new ≡
        run_after job.now s b st rows.now answers.old }
{
    let gains = &job[b.gains..b.gains + constants::TRIPLE_BYTES];
    row::runs::run(s, gains, records_of(job, b), st, rows, answers)
}

// Whether a job is taken.
pub fn uplink_refusal(job: &[u8], place: &mut usize) -> u8
    ensures { refusal_at result place.new ≡ refusal_of (loaded_of job.now) }
{
    leave(job::load(job).err(), place)
}

// Every row of a job. Afterwards the buffer has the answers of the accepted rows, then what stood there.
pub fn uplink_run(job: &[u8], answers: &mut [i32], place: &mut usize) -> u8
    ensures { told result place.new answers.new ≡
        told_by (ran_of job.now answers.old) }
{
    leave(refusal_of(job::run(job, answers)), place)
}

// Rows of the caller's own, from the start of a job: its settings and its gaps hold, its own rows do not.
pub fn uplink_rows(job: &[u8], rows: &[u8], answers: &mut [i32], place: &mut usize) -> u8
    ensures { told result place.new answers.new ≡
        told_by (callers_rows job.now rows.now answers.old) }
{
    let loaded = job::load(job);
    let Ok((s, b)) = loaded else {
        return leave(loaded.err(), place);
    };
    let ran = run_after(job, s, b, row_state::start(s), rows, answers);
    leave(refusal_of(ran), place)
}

// The ids that put a slot of a job into an uplink gap, and into a downlink gap. Where the job is refused, none.
pub fn uplink_slot(
    job: &[u8],
    slot: u32,
    uplink: &mut u8,
    downlink: &mut u8,
    place: &mut usize,
) -> u8
    ensures { slot_told result place.new uplink.new downlink.new ≡
        slot_answered job.now slot }
{
    let loaded = job::load(job);
    let Ok((_, b)) = loaded else {
        *uplink = 0;
        *downlink = 0;
        return leave(loaded.err(), place);
    };
    let by = gap_slots::slot_at(records_of(job, b), slot);
    *uplink = by.up;
    *downlink = by.down;
    leave(None, place)
}

// A state into the numbers and the level that were lent for one; 11 and nothing where the numbers are more or fewer
// than a state has.
fn hand_out(st: State, numbers: &mut [i64], level: &mut f64) -> Option<Refusal>
    ensures { handed (unwrap_or result no_refusal) (lent numbers.new level.new) ≡
        start_handed st (lent numbers.old level.old) }
{
    if exports_state::pack(st, numbers) {
        *level = st.filter.level;
        return None;
    }
    Some(Refusal {
        number: constants::WRONG_STATE,
        place: 0,
    })
}

// The state that a run hands out. Where all of it is refused, there is none.
fn hand_on(ran: Ran, numbers: &mut [i64], level: &mut f64)
    requires { length numbers.old ≡ state_numbers }
    ensures { lent numbers.new level.new ≡
        lent_by ran (lent numbers.old level.old) }
{
    match ran {
        Ran::Done(st) => {
            hand_out(st, numbers, level);
        }
        Ran::Stopped(st, _) => {
            hand_out(st, numbers, level);
        }
        Ran::Refused(_) => {}
    }
}

// The state before row 0 of a job, as docs/STATE.md orders its numbers. Where the job is refused, or where the numbers
// are more or fewer than a state has, numbers and level are as they were.
pub fn uplink_start(job: &[u8], numbers: &mut [i64], level: &mut f64, place: &mut usize) -> u8
    ensures { start_told result place.new (lent numbers.new level.new) ≡
        started_lent job.now (lent numbers.old level.old) }
{
    let loaded = job::load(job);
    let Ok((s, _)) = loaded else {
        return leave(loaded.err(), place);
    };
    leave(hand_out(row_state::start(s), numbers, level), place)
}

// Rows of the caller's own after a state of a job, one row or many. Afterwards numbers and level are the state after
// the accepted rows, and the buffer has their answers; where all of it is refused, everything is as it was. Numbers that
// are no state are refused as a state outside its ranges is.
pub fn uplink_next(
    job: &[u8],
    numbers: &mut [i64],
    level: &mut f64,
    rows: &[u8],
    answers: &mut [i32],
    place: &mut usize,
) -> u8
    ensures { next_told result place.new
        (lent numbers.new level.new) answers.new ≡
        next_of job.now rows.now
        (lent numbers.old level.old) answers.old }
{
    let loaded = job::load(job);
    let Ok((s, b)) = loaded else {
        return leave(loaded.err(), place);
    };
    let unpacked = exports_state::unpack(numbers, *level);
    let Some(st) = unpacked else {
        let row = exports_state::row_said(numbers);
        let offered = row_values::rows_offered(rows);
        return leave(
            row::runs::refusal(row, offered, answers.len(), false),
            place,
        );
    };
    let ran = run_after(job, s, b, st, rows, answers);
    hand_on(ran, numbers, level);
    leave(refusal_of(ran), place)
}
