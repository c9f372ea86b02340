// A calm row: one has been sent before it, its slot is no gap slot, and neither a run nor the recovery after one
// reaches it. In a job with few gaps nearly all rows are: they walk no run, and only the fifth rule of the change is
// theirs.
ghost use Rattle.std.specs.Prelude.{◌≡◌};
ghost use Rattle.row_rules.specs.Rules.{row_of};
ghost use Rattle.row.specs.Calm.{is_calm, Calm};

use crate::{refused_at, row_wrong, sent_by};
use gap_runs::Run;
use gap_slots::Slot;
use job_settings::Settings;
use power::Gain;
use row_change::Here;
use row_rules::Stepped;
use row_state::State;
use row_values::Row;

// Whether a row is calm.
#[tactic(auto, unfolding(crate::specs::Calm::is_calm))]
pub(crate) fn is_calm(slot: Slot, st: State) -> bool
    ensures { result ≡ is_calm slot st }
{
    let run = st.run;
    if gap_slots::opens_uplink(slot) {
        return false;
    }
    if gap_slots::opens_downlink(slot) {
        return false;
    }
    if 0 < run.length {
        return false;
    }
    if 0 < run.left {
        return false;
    }
    st.sent
}

// A calm row: its bytes, its command, its change by the fifth rule, and the rest as of any sent row. Bytes that break
// no rule have 3 to 8 pilot bits: asked once more nothing is refused, but only so does the compiler leave the levels
// of other numbers, a call, out of the loop.
pub(crate) fn calm_row(s: Settings, g: Gain, slot: Slot, st: State, row: Row) -> Stepped
    requires { Calm s g slot st }
    ensures { result ≡ row_of s g slot st row }
{
    if row_wrong(s.links, slot, row) {
        return refused_at(constants::WRONG_ROW, st.row);
    }
    if row.pilots < constants::PILOTS_LEAST {
        return refused_at(constants::WRONG_ROW, st.row);
    }
    if constants::PILOTS_MOST < row.pilots {
        return refused_at(constants::WRONG_ROW, st.row);
    }
    let c = command::command(s.pca, s.links, false, false, st.row, st.set, row.commands);
    let change = row_change::by_step(s, c, st.pilots, row.pilots);
    let here = Here {
        up: false,
        down: false,
        resume: false,
        recovery: false,
    };
    let still = Run { length: 0, left: 0 };
    sent_by(s, g, slot, st, here, still, c, row, change)
}
