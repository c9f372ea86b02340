// Jobs, always handed over whole: the load of a file, the state before its first row, one row after a state, and the
// run of all its rows.
#![tactic(auto)]

ghost use Rattle.std.specs.Prelude.{◌≡◌};
ghost use Rattle.job.specs.Load.{settings_body, gains_body, records_body, rows_body, refusal_of, LoadTold};
ghost use Rattle.job.specs.Parts.{Inside, bodies_judged};
ghost use Rattle.job.specs.Says.{StartTold, JobStepTold, JobRunTold};

use ground::Refusal;
use job_contents::Bodies;
use job_settings::Settings;
use row_rules::{Ran, Stepped};
use row_state::State;
use row_values::Row;

// What a load answers: the settings and where the bodies lie, or a refusal.
pub type Loaded = Result<(Settings, Bodies), Refusal>;

// The bodies of a job, as parts of its file.
#[derive(Clone, Copy)]
struct Slices<'a> {
    settings: &'a [u8],
    gains: &'a [u8],
    records: &'a [u8],
    rows: &'a [u8],
}

// The parts of a job whose contents were found.
fn slices_of(job: &[u8], b: Bodies) -> Slices<'_>
    requires { Inside job.now b }
    ensures settings { result.settings.now ≡ settings_body job.now b }
    ensures gains { result.gains.now ≡ gains_body job.now b }
    ensures records { result.records.now ≡ records_body job.now b }
    ensures rows { result.rows.now ≡ rows_body job.now b }
{
    Slices {
        settings: &job[b.settings..b.records],
        gains: &job[b.gains..b.gains + constants::TRIPLE_BYTES],
        records: &job[b.records..b.rows],
        rows: &job[b.rows..],
    }
}

// Contents, settings, records, and the number of rows, in this order.
pub fn load(job: &[u8]) -> Loaded
    ensures { LoadTold job.now result }
{
    let b = job_contents::read(job)?;
    let p = slices_of(job, b);
    judged(b, p.settings, p.records, p.rows)
}

// What a load says of bodies that were found: settings, records, and the number of rows, in this order.
#[tactic(auto, unfolding(crate::specs::Parts::bodies_judged))]
pub fn judged(b: Bodies, settings: &[u8], records: &[u8], rows: &[u8]) -> Loaded
    ensures { result ≡ bodies_judged b settings.now records.now rows.now }
{
    let s = job_settings::read(settings)?;
    gap_records::check(records)?;
    if (constants::ROWS_MOST as usize) < rows.len() / constants::ROW_BYTES {
        return Err(Refusal {
            number: constants::TOO_MANY_ROWS,
            place: constants::ROWS_MOST as usize,
        });
    }
    Ok((s, b))
}

// The refusal of a load, number 0 where there is none.
#[tactic(auto, unfolding(crate::specs::Load::refusal_of))]
pub fn refusal(loaded: Loaded) -> Refusal
    ensures { result ≡ refusal_of loaded }
{
    // Kept: `refusal_of` has number 0 at place 0 where a job is taken (refusals-none), and this promises it.
    match loaded {
        Ok(_) => Refusal {
            number: 0,
            place: 0,
        },
        Err(r) => r,
    }
}

// The state before row 0 of a job.
pub fn start(job: &[u8]) -> Result<State, Refusal>
    ensures { StartTold job.now result }
{
    let loaded = load(job);
    let Ok((s, _)) = loaded else {
        return Err(refusal(loaded));
    };
    Ok(row_state::start(s))
}

// One row of a job after a state. It need not be a row of the file.
pub fn step(job: &[u8], st: State, row: Row) -> Stepped
    ensures { JobStepTold job.now st row result }
{
    let loaded = load(job);
    let Ok((s, b)) = loaded else {
        return Err(refusal(loaded));
    };
    let p = slices_of(job, b);
    row::step(s, p.gains, p.records, st, row)
}

// Every row of a job, from the start. Afterwards the buffer has the answers of the accepted rows, then what stood
// there.
pub fn run(job: &[u8], answers: &mut [i32]) -> Ran
    ensures { JobRunTold job.now answers.old result answers.new }
{
    let loaded = load(job);
    let Ok((s, b)) = loaded else {
        return Ran::Refused(refusal(loaded));
    };
    let st = row_state::start(s);
    let p = slices_of(job, b);
    row::runs::run(s, p.gains, p.records, st, p.rows, answers)
}
