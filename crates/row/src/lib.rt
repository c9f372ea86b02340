// One row: its command, its change, its power and limiting, what is withheld, and the state that the next row starts
// from.
#![tactic(auto)]

use gap_runs::Run;
use gap_slots::Slot;
use ground::Refusal;
use job_settings::Settings;
use power::Gain;
use row_change::Here;
use row_rules::{Books, Stepped};
use row_state::State;
use row_values::{Answer, Row};

mod calm;
pub mod runs;

ghost use Rattle.std.specs.Prelude.{◌≡◌, ◌<◌, ◌+ℤ◌};
ghost use Rattle.constants.specs.Sizes.{rows_most};
ghost use Rattle.constants.specs.Refusals.{refusal};
ghost use Rattle.row_rules.specs.Rules.{pilots_wrong, row_wrong, resting as resting_of, settled_of, data_power};
ghost use Rattle.row_rules.specs.Rules.{gain_for};
ghost use Rattle.row_rules.specs.Rules.{sent_state, sent_answer, gap_answer, next_state, sent_at, sent_row, row_in, row_of};
ghost use Rattle.row_rules.specs.Ranges.{InRanges};
ghost use Rattle.row_rules.specs.Says.{StepTold};
ghost use Rattle.row.specs.Asks.{Admitted, Settling, Answering, Going, Sending, Summed};

// A refusal at a row.
pub(crate) fn at_row(number: u8, row: u32) -> Refusal
    ensures { result ≡ refusal number row }
{
    Refusal {
        number,
        place: row as usize,
    }
}

// A row that is refused, at its own number.
pub(crate) fn refused_at(number: u8, row: u32) -> Stepped
    ensures { result ≡ Err (refusal number row) }
{
    Err(at_row(number, row))
}

// Whether the pilot bits of a row break their rule.
#[tactic(auto, unfolding(row_rules::specs::Rules::pilots_wrong))]
fn pilots_wrong(up: bool, pilots: u8) -> bool
    ensures { result ≡ pilots_wrong up pilots }
{
    if up {
        return 0 < pilots;
    }
    (pilots < constants::PILOTS_LEAST) | (constants::PILOTS_MOST < pilots)
}

// Whether a byte of a row breaks its rule.
#[tactic(auto, unfolding(row_rules::specs::Rules::row_wrong, row_rules::specs::Rules::commands_wrong))]
pub(crate) fn row_wrong(links: u8, slot: Slot, row: Row) -> bool
    ensures { result ≡ row_wrong links slot row }
{
    let up = gap_slots::opens_uplink(slot);
    let down = gap_slots::opens_downlink(slot);
    let within = command_algorithms::within_links(row.commands as u32, links);
    let wrong = pilots_wrong(up, row.pilots);
    !within | (down & (0 < row.commands)) | wrong
}

// The books over a gap row: nothing is sent, and power is held.
#[tactic(auto, unfolding(row_rules::specs::Rules::resting))]
fn resting(st: State) -> Books
    ensures { result ≡ resting_of st }
{
    Books {
        sent: st.sent,
        power: st.power,
        held: st.held,
        pilots: st.pilots,
        limited: false,
    }
}

// The books after a sent row, from the power before limiting.
fn settled(held: i32, sum: i32, ceiling: i32, pilots: u8) -> Books
    requires { Settling held sum ceiling }
    ensures { result ≡ settled_of held sum ceiling pilots }
{
    let power = sum.min(ceiling);
    Books {
        sent: true,
        power,
        held: held + (sum - power),
        pilots,
        limited: ceiling < sum,
    }
}

// Data power beside control power, 0 where no data channel is sent.
#[tactic(auto, unfolding(row_rules::specs::Rules::data_power))]
fn data_power(g: Gain, power: i32) -> i32
    requires { Answering g power }
    ensures { result ≡ data_power g power }
{
    if g.carries_data { power + g.offset } else { 0 }
}

// The first number of a sent row's answer.
fn sent_state(limited: bool) -> i32
    ensures { result ≡ sent_state limited }
{
    if limited { 2 } else { 1 }
}

// The answer of a sent row.
fn sent_answer(g: Gain, slot: Slot, command: i8, b: Books) -> Answer
    requires { Answering g b.power }
    ensures { result ≡ sent_answer g slot command b }
{
    Answer {
        state: sent_state(b.limited),
        command: i32::from(command),
        dpcch: b.power,
        dpdch: data_power(g, b.power),
        total: b.power + g.bracket,
        held: b.held,
        uplink: i32::from(slot.up),
        downlink: i32::from(slot.down),
    }
}

// The answer of a gap row.
#[tactic(auto, unfolding(row_rules::specs::Rules::gap_answer))]
fn gap_answer(slot: Slot, command: i8, held: i32) -> Answer
    ensures { result ≡ gap_answer slot command held }
{
    Answer {
        state: 0,
        command: i32::from(command),
        dpcch: 0,
        dpdch: 0,
        total: 0,
        held,
        uplink: i32::from(slot.up),
        downlink: i32::from(slot.down),
    }
}

// The state after a row: its books, and what the next row needs of the slots and of the filter.
#[tactic(auto, unfolding(row_rules::specs::Rules::next_state))]
fn next(s: Settings, st: State, here: Here, run: Run, command: i8, row: Row, b: Books) -> State
    requires { st.row < rows_most }
    ensures { result ≡ next_state s st here run command row b }
{
    let set = command_algorithms::set_after(st.set, st.row, here.down, here.recovery, row.commands);
    State {
        row: st.row + 1,
        sent: b.sent,
        power: b.power,
        held: b.held,
        pilots: b.pilots,
        limited: b.limited,
        run,
        opening: row_change::opening_after(st.opening, here, command),
        set,
        filter: row_change::filter_after(s, st, here, command, b.limited),
    }
}

// A sent row by its change: refusal 9, its power, and what follows from it. The change comes as a number, so that this
// is short enough to be compiled into both ways that lead here: a call would hand the states over through memory.
// Kept: each value by itself, as `sent_at` to `row_of` take them; a struct would be taken apart in each clause here.
pub(crate) fn sent_by(
    s: Settings,
    g: Gain,
    slot: Slot,
    st: State,
    here: Here,
    run: Run,
    command: i8,
    row: Row,
    change: i32,
) -> Stepped
    requires { Summed s g st change }
    ensures { result ≡ sent_at s g slot st here run command row (st.power +ℤ change) }
{
    let sum = st.power + change;
    if sum < constants::POWER_LEAST {
        return refused_at(constants::POWER_TOO_LOW, st.row);
    }
    let b = settled(st.held, sum, g.ceiling, row.pilots);
    let a = sent_answer(g, slot, command, b);
    let n = next(s, st, here, run, command, row, b);
    Ok((n, a))
}

// A sent row: the first of the five rules of the change that applies, and the rest.
fn sent_row(
    s: Settings,
    g: Gain,
    slot: Slot,
    st: State,
    here: Here,
    run: Run,
    command: i8,
    row: Row,
) -> Stepped
    requires { Sending s g st command row.pilots }
    ensures { result ≡ sent_row s g slot st here run command row }
{
    let change = row_change::change(s, st, here, command, row.pilots);
    sent_by(s, g, slot, st, here, run, command, row, change)
}

// A row whose bytes break no rule: its command, then the row by what its slot is.
fn row_in(s: Settings, g: Gain, slot: Slot, st: State, here: Here, run: Run, row: Row) -> Stepped
    requires { Going s g st here.up row.pilots }
    ensures { result ≡ row_in s g slot st here run row }
{
    let c = command::command(
        s.pca,
        s.links,
        here.down,
        here.recovery,
        st.row,
        st.set,
        row.commands,
    );
    if here.up {
        let n = next(s, st, here, run, c, row, resting(st));
        return Ok((n, gap_answer(slot, c, st.held)));
    }
    sent_row(s, g, slot, st, here, run, c, row)
}

// A row in its slot, under its gain: settings and state are in their ranges, and nothing of them is tested again. The
// run that the slot may be in is walked.
// Kept: `InRanges` speaks of settings, gain and state; each row makes a new state, and would prove a ghost field anew.
fn row_walked(s: Settings, g: Gain, slot: Slot, st: State, row: Row) -> Stepped
    requires { InRanges s g st }
    ensures { result ≡ row_of s g slot st row }
{
    if row_wrong(s.links, slot, row) {
        return refused_at(constants::WRONG_ROW, st.row);
    }
    let walked = gap_runs::walk(st.run, slot);
    let here = row_change::stand(s.rpp, slot, walked.kind);
    row_in(s, g, slot, st, here, walked.run, row)
}

// The same, a calm row by the shorter way.
pub(crate) fn row_by(s: Settings, g: Gain, slot: Slot, st: State, row: Row) -> Stepped
    requires { InRanges s g st }
    ensures { result ≡ row_of s g slot st row }
{
    if calm::is_calm(slot, st) {
        return calm::calm_row(s, g, slot, st, row);
    }
    row_walked(s, g, slot, st, row)
}

// The one gain of a job.
pub(crate) fn gain_for(s: Settings, gains: &[u8]) -> Gain
    ensures { result ≡ gain_for s gains.now }
{
    job_settings::gain_at(gains, s.maximum, 0)
}

// Whether settings, the triple and a state are in their ranges.
pub(crate) fn admitted(s: Settings, gains: &[u8], g: Gain, st: State) -> bool
    ensures { Admitted s gains.now g.ceiling st result }
{
    let settings = job_settings::settings_sound(s);
    let triple = job_settings::gains_sound(gains);
    let state = row_state::sound(s.links, g.ceiling, st);
    settings & triple & state
}

// One row, for any settings and any state: 7 for a row after the 30,000th, 11 for settings, a triple or a state outside
// their ranges, 8, 9, or the next state and the answer.
pub fn step(s: Settings, gains: &[u8], records: &[u8], st: State, row: Row) -> Stepped
    ensures { StepTold s gains.now records.now st row result }
{
    if constants::ROWS_MOST <= st.row {
        return refused_at(constants::TOO_MANY_ROWS, constants::ROWS_MOST);
    }
    let g = gain_for(s, gains);
    if admitted(s, gains, g, st) {
        let slot = gap_slots::slot_at(records, st.row);
        return row_walked(s, g, slot, st, row);
    }
    refused_at(constants::WRONG_STATE, 0)
}
