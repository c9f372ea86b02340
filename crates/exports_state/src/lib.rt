// A state as plain numbers, in the order of docs/STATE.md: its version, then its parts, and the filter's level beside
// them. So it crosses a border that knows no structs. A caller who was built for another form lends another count of
// numbers, or another version: that is no state.
#![tactic(auto)]

ghost use Rattle.std.specs.Prelude.{◌≡◌, List, [], ◌∷◌, pos};
ghost use Rattle.std.specs.Int.Signed.{lt_z};
ghost use Rattle.exports_state.specs.Packed.{fits_range, flag, run_ranges, opening_ranges, set_ranges};
ghost use Rattle.exports_state.specs.Packed.{fitting, run_from, opening_from, set_from};
ghost use Rattle.exports_state.specs.Packed.{numbers_of, packed, packed_of, UnpackTold, row_said};
ghost use Rattle.exports_state.specs.Packed.Parts.{some_if};

use command_algorithms::Set;
use gap_runs::Run;
use resume_filter::Filter;
use row_state::{Opening, State};

// The version of this form, which is number 0.
pub const STATE_VERSION: i64 = 1;

// How many numbers a state has.
pub const STATE_NUMBERS: usize = 17;

const HALF: usize = 8;

// 0 and 1 as what does not hold and what does; no other number is either.
fn flag_in(number: i64) -> Option<bool>
    ensures { result ≡ some_if (fits_range flag number) (lt_z (pos 0) number) }
{
    match number {
        0 => Some(false),
        1 => Some(true),
        _ => None,
    }
}

// A run from its two numbers,
fn run_in(length: i64, left: i64) -> Option<Run>
    ensures { result ≡ some_if (fitting run_ranges (length ∷ left ∷ [])) (run_from (length ∷ left ∷ [])) }
{
    let length = u8::try_from(length).ok()?;
    let left = u8::try_from(left).ok()?;
    Some(Run { length, left })
}

// an opening from its two,
fn opening_in(seen: i64, command: i64) -> Option<Opening>
    ensures { result ≡ some_if (fitting opening_ranges (seen ∷ command ∷ [])) (opening_from (seen ∷ command ∷ [])) }
{
    let seen = flag_in(seen)?;
    let command = i8::try_from(command).ok()?;
    Some(Opening { seen, command })
}

// and a set from its five.
fn set_in(a: i64, b: i64, c: i64, d: i64, spoilt: i64) -> Option<Set>
    ensures { result ≡ some_if (fitting set_ranges (a ∷ b ∷ c ∷ d ∷ spoilt ∷ [])) (set_from (a ∷ b ∷ c ∷ d ∷ spoilt ∷ [])) }
{
    let a = u32::try_from(a).ok()?;
    let b = u32::try_from(b).ok()?;
    let c = u32::try_from(c).ok()?;
    let d = u32::try_from(d).ok()?;
    let spoilt = flag_in(spoilt)?;
    Some(Set { a, b, c, d, spoilt })
}

// The state that numbers and a level are.
pub fn unpack(numbers: &[i64], level: f64) -> Option<State>
    ensures { UnpackTold numbers.now level result }
{
    if numbers.len() != STATE_NUMBERS {
        return None;
    }
    if numbers[0] != STATE_VERSION {
        return None;
    }
    let row = u32::try_from(numbers[1]).ok()?;
    let sent = flag_in(numbers[2])?;
    let power = i32::try_from(numbers[3]).ok()?;
    let held = i32::try_from(numbers[4]).ok()?;
    let pilots = u8::try_from(numbers[5]).ok()?;
    let limited = flag_in(numbers[6])?;
    let run = run_in(numbers[7], numbers[8])?;
    let opening = opening_in(numbers[9], numbers[10])?;
    let set = set_in(
        numbers[11],
        numbers[12],
        numbers[13],
        numbers[14],
        numbers[15],
    )?;
    let count = u32::try_from(numbers[16]).ok()?;
    let filter = Filter { level, count };
    Some(State {
        row,
        sent,
        power,
        held,
        pilots,
        limited,
        run,
        opening,
        set,
        filter,
    })
}

// The row that lent numbers say, 0 where it is below 0. Numbers of another form say none: nothing of them is read.
pub fn row_said(numbers: &[i64]) -> usize
    ensures { result ≡ row_said numbers.now }
{
    if numbers.len() == STATE_NUMBERS && numbers[0] == STATE_VERSION {
        return usize::try_from(numbers[1]).unwrap_or(0);
    }
    0
}

// All numbers of a state, the version before them.
fn all_numbers(st: State) -> [i64; STATE_NUMBERS]
    ensures { result ≡ numbers_of st }
{
    [
        STATE_VERSION,
        i64::from(st.row),
        i64::from(st.sent),
        i64::from(st.power),
        i64::from(st.held),
        i64::from(st.pilots),
        i64::from(st.limited),
        i64::from(st.run.length),
        i64::from(st.run.left),
        i64::from(st.opening.seen),
        i64::from(st.opening.command),
        i64::from(st.set.a),
        i64::from(st.set.b),
        i64::from(st.set.c),
        i64::from(st.set.d),
        i64::from(st.set.spoilt),
        i64::from(st.filter.count),
    ]
}

// The numbers of a state, its level not among them. Nothing where the numbers lent are more or fewer.
pub fn pack(st: State, numbers: &mut [i64]) -> bool
    ensures { packed result numbers.new ≡ packed_of st numbers.old }
{
    if numbers.len() == STATE_NUMBERS {
        // In two halves: the compiler copies so few bytes without C's memcpy, which the archive then asks of nobody.
        let all = all_numbers(st);
        let (first, last) = numbers.split_at_mut(HALF);
        first.copy_from_slice(&all[..HALF]);
        last.copy_from_slice(&all[HALF..]);
        return true;
    }
    false
}
