// What a run keeps: the state between two rows, its start and its ranges.
#![tactic(auto)]

ghost use Rattle.std.specs.Prelude.{◌≡◌, ◌≤◌};
ghost use Rattle.constants.specs.Sizes.{rows_most};
ghost use Rattle.row_state.specs.States.{state_start, opening_sound, slots_sound};
ghost use Rattle.row_state.specs.States.{unsent_sound, sent_sound, books_sound, StateTested};

use command_algorithms::Set;
use gap_runs::Run;
use job_settings::Settings;
use resume_filter::Filter;

// The first uplink gap slot of the run that ends with the row before: whether there was one, and its command, 0 where
// there was none.
// Kept: `exports_state::unpack` takes lent numbers of any kind, as `UnpackTold` says: a command beside `seen` = 0 too.
#[derive(Clone, Copy)]
pub struct Opening {
    pub seen: bool,
    pub command: i8,
}

// All that the next row needs of the rows before it.
// Kept: `exports_state::unpack` takes any numbers of the books beside `sent` = 0, as `UnpackTold` says of each.
#[derive(Clone, Copy)]
pub struct State {
    // rows accepted so far, which is the number of the next row
    pub row: u32,
    // whether a row has been sent
    pub sent: bool,
    // control power, the start power until a row is sent; held over a gap
    pub power: i32,
    // withheld so far
    pub held: i32,
    // pilot bits of the last sent row, 0 until there is one
    pub pilots: u8,
    // whether the row before was limited
    pub limited: bool,
    pub run: Run,
    pub opening: Opening,
    pub set: Set,
    pub filter: Filter,
}

// The state before row 0.
#[tactic(auto, unfolding(crate::specs::States::state_start))]
pub fn start(s: Settings) -> State
    ensures { result ≡ state_start s }
{
    State {
        row: 0,
        sent: false,
        power: s.start,
        held: 0,
        pilots: 0,
        limited: false,
        run: gap_runs::start(),
        opening: Opening {
            seen: false,
            command: 0,
        },
        set: command_algorithms::fresh(),
        filter: resume_filter::empty(),
    }
}

// Whether the command of an opening is one that a row can have.
#[tactic(auto, unfolding(crate::specs::States::opening_sound))]
fn opening_sound(command: i8) -> bool
    ensures { result ≡ opening_sound command }
{
    ground::between(i32::from(command), -1, 1)
}

// Whether what a state keeps of the slots is in its ranges.
#[tactic(auto, unfolding(crate::specs::States::slots_sound))]
fn slots_sound(links: u8, st: State) -> bool
    ensures { result ≡ slots_sound links st }
{
    let walked = gap_runs::sound(st.run);
    let opened = opening_sound(st.opening.command);
    let bytes = command_algorithms::sound(st.set, links);
    walked & opened & bytes
}

// Whether books are in their ranges until a row is sent,
#[tactic(auto, unfolding(crate::specs::States::unsent_sound))]
fn unsent_sound(st: State) -> bool
    ensures { result ≡ unsent_sound st.power st.held st.pilots }
{
    let in_power = ground::between(st.power, constants::POWER_LEAST, constants::START_MOST);
    let in_held = ground::between(st.held, 0, 0);
    in_power & in_held & (st.pilots < 1)
}

// and from then on.
#[tactic(auto, unfolding(crate::specs::States::sent_sound))]
fn sent_sound(ceiling: i32, st: State) -> bool
    requires { st.row ≤ rows_most }
    ensures { result ≡ sent_sound ceiling st.row st.power st.held st.pilots }
{
    let most = (7316 + 2257 * st.row) as i32;
    let in_power = ground::between(st.power, constants::POWER_LEAST, ceiling);
    let in_held = ground::between(st.held, 0, most);
    let least = constants::PILOTS_LEAST <= st.pilots;
    in_power & in_held & least & (st.pilots <= constants::PILOTS_MOST)
}

// Whether the books of a state are in their ranges.
#[tactic(auto, unfolding(crate::specs::States::books_sound))]
fn books_sound(ceiling: i32, st: State) -> bool
    requires { st.row ≤ rows_most }
    ensures { result ≡ books_sound ceiling st }
{
    if st.sent {
        return sent_sound(ceiling, st);
    }
    unsent_sound(st)
}

// Whether a state is in its ranges, for so many link sets and under a ceiling.
#[tactic(auto, unfolding(crate::specs::States::state_sound))]
pub fn sound(links: u8, ceiling: i32, st: State) -> bool
    ensures { StateTested links ceiling st result }
{
    let kept = resume_filter::sound(st.filter, st.row);
    let slots = slots_sound(links, st);
    if constants::ROWS_MOST < st.row {
        return false;
    }
    let books = books_sound(ceiling, st);
    kept & slots & books
}
