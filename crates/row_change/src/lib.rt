// What one row changes: the change of its power, and what the next row needs of its slot and of the filter.
#![tactic(auto)]

ghost use Rattle.std.specs.Prelude.{◌≡◌};
ghost use Rattle.row_change.specs.Change.{here_of, resumes as resumes_of, by_resume, by_recovery, by_step, change_of};
ghost use Rattle.row_change.specs.After.{updates as updates_of, filter_after, opening_after};

use gap_runs::Kind;
use gap_slots::Slot;
use job_settings::Settings;
use resume_filter::Filter;
use row_state::{Opening, State};

// What a slot is to its row: an uplink gap slot, a downlink gap slot, a resume slot, a recovery slot under RPP 1.
#[derive(Clone, Copy)]
pub struct Here {
    pub up: bool,
    pub down: bool,
    pub resume: bool,
    pub recovery: bool,
}

// Whether a slot is a resume slot.
#[tactic(auto, unfolding(crate::specs::Change::resumes))]
fn resumes(kind: Kind) -> bool
    ensures { result ≡ resumes_of kind }
{
    kind == Kind::Resume
}

// What a slot is to its row, by its directions and its kind.
#[tactic(auto, unfolding(crate::specs::Change::here_of))]
pub fn stand(rpp: u8, slot: Slot, kind: Kind) -> Here
    ensures { result ≡ here_of rpp slot kind }
{
    Here {
        up: gap_slots::opens_uplink(slot),
        down: gap_slots::opens_downlink(slot),
        resume: resumes(kind),
        recovery: command::recovery_rule(rpp, kind),
    }
}

// Rule 2: the resume change and the pilot change.
fn by_resume(s: Settings, st: State, pilots: u8) -> i32
    ensures { result ≡ by_resume s st pilots }
{
    let step = power::step_units(s.step);
    let resume = resume_filter::resume_change(s.itp, step, st.opening.command, st.filter);
    let whole = resume_filter::whole_units(resume);
    let pilot = power::pilot_change(st.pilots, pilots);
    whole + pilot
}

// Rule 4: the command times the recovery step, and the pilot change.
#[tactic(auto, unfolding(crate::specs::Change::by_recovery))]
fn by_recovery(s: Settings, command: i8, before: u8, pilots: u8) -> i32
    ensures { result ≡ by_recovery s command before pilots }
{
    let step = power::step_units(s.step);
    let recovery = power::recovery_step(s.pca, step);
    power::step_change(command, recovery, before, pilots)
}

// Rule 5: the command times the step, and the pilot change. A row that no gap has to do with asks it straight away.
#[tactic(auto, unfolding(crate::specs::Change::by_step))]
pub fn by_step(s: Settings, command: i8, before: u8, pilots: u8) -> i32
    ensures { result ≡ by_step s command before pilots }
{
    let step = power::step_units(s.step);
    power::step_change(command, step, before, pilots)
}

// The change of a sent row, by the first of the five rules that applies.
#[tactic(auto, unfolding(crate::specs::Change::change_of))]
pub fn change(s: Settings, st: State, here: Here, command: i8, pilots: u8) -> i32
    ensures { result ≡ change_of s st here command pilots }
{
    if !st.sent {
        return 0;
    }
    if here.resume {
        return by_resume(s, st, pilots);
    }
    if here.down {
        return 0;
    }
    if here.recovery {
        return by_recovery(s, command, st.pilots, pilots);
    }
    by_step(s, command, st.pilots, pilots)
}

// Whether a row updates the filter.
#[tactic(auto, unfolding(crate::specs::After::updates))]
fn updates(here: Here, sent: bool, seen: bool) -> bool
    ensures { result ≡ updates_of here sent seen }
{
    !here.down & (!here.up | (sent & !seen))
}

// The filter after a row. `limited` is whether this row is limited, which no gap row is.
// DECISIONS: filter-count-returns
pub fn filter_after(s: Settings, st: State, here: Here, command: i8, limited: bool) -> Filter
    ensures { result ≡ filter_after s st here command limited }
{
    let step = power::step_units(s.step);
    let b = resume_filter::bracket(command, step, st.limited, limited);
    if updates(here, st.sent, st.opening.seen) {
        if here.resume {
            return resume_filter::empty();
        }
        return resume_filter::update(st.filter, b);
    }
    st.filter
}

// What is kept of the run's first uplink gap slot after a row.
#[tactic(auto, unfolding(crate::specs::After::opening_after))]
pub fn opening_after(opening: Opening, here: Here, command: i8) -> Opening
    ensures { result ≡ opening_after opening here command }
{
    if here.up {
        if opening.seen {
            return opening;
        }
        return Opening {
            seen: true,
            command,
        };
    }
    if here.down {
        return opening;
    }
    Opening {
        seen: false,
        command: 0,
    }
}
