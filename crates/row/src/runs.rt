// A run: row after row over a part of rows, each answer into a lent buffer.
ghost use Rattle.std.specs.Prelude.{◌≡◌};
ghost use Rattle.gap_slots.specs.Slots.{slot_at};
ghost use Rattle.row_rules.specs.Runs.{ended, written, go_over, run_refusal};
ghost use Rattle.row_rules.specs.Says.{RunTold};
ghost use Rattle.row.specs.Asks.{Running};

use crate::{admitted, at_row, gain_for, row_by};
use gap_frames::{Lanes, Window};
use ground::Refusal;
use job_settings::Settings;
use power::Gain;
use row_rules::Ran;
use row_state::State;

// What is asked of a whole run before its first row: of so many rows after this row, with room for so many numbers,
// from a state that is sound or not. 7 for a row after the 30,000th, 10 for a buffer too short, 11; none where none of
// them refuses.
#[tactic(auto, unfolding(row_rules::specs::Runs::run_refusal))]
pub fn refusal(row: usize, rows: usize, room: usize, sound: bool) -> Option<Refusal>
    ensures { result ≡ run_refusal row rows room sound }
{
    let left = (constants::ROWS_MOST as usize).saturating_sub(row);
    if left < rows {
        return Some(at_row(constants::TOO_MANY_ROWS, constants::ROWS_MOST));
    }
    let needed = constants::ANSWER_NUMBERS * rows;
    if room < needed {
        return Some(Refusal {
            number: constants::SHORT_ANSWERS,
            place: needed,
        });
    }
    if sound {
        return None;
    }
    Some(at_row(constants::WRONG_STATE, 0))
}

// Every row in order, the slots of a frame read ahead. Bytes left over at the end are a row that lacks some of its own.
fn run_rows(s: Settings, g: Gain, records: &[u8], start: State, rows: &[u8], out: &mut [i32]) -> Ran
    requires { Running s g start rows.now out.old }
    ensures { ended result out.new ≡ written out.old 0
        (go_over s g (slot_at records.now) start rows.now) }
{
    let mut st = start;
    let mut w = Window {
        left: 0,
        gaps: 0,
        up: Lanes { low: 0, high: 0 },
        down: Lanes { low: 0, high: 0 },
    };
    for k in 0..rows.len() / constants::ROW_BYTES {
        let ahead = gap_frames::take(records, w, st.row);
        w = ahead.rest;
        let row = row_values::row_at(rows, k);
        match row_by(s, g, ahead.slot, st, row) {
            Err(r) => return Ran::Stopped(st, r),
            Ok((next, a)) => {
                row_values::put(out, k, a);
                st = next;
            }
        }
    }
    if 0 < rows.len() % constants::ROW_BYTES {
        return Ran::Stopped(st, at_row(constants::WRONG_ROW, st.row));
    }
    Ran::Done(st)
}

// Every row of a part, from any state: refused as a whole, or row by row. Afterwards the buffer has the answers of the
// accepted rows, then what stood there.
pub fn run(
    s: Settings,
    gains: &[u8],
    records: &[u8],
    st: State,
    rows: &[u8],
    out: &mut [i32],
) -> Ran
    ensures { RunTold s gains.now records.now st rows.now out.old
        result out.new }
{
    let g = gain_for(s, gains);
    let sound = admitted(s, gains, g, st);
    let n = row_values::rows_offered(rows);
    match refusal(st.row as usize, n, out.len(), sound) {
        Some(r) => Ran::Refused(r),
        None => run_rows(s, g, records, st, rows, out),
    }
}
