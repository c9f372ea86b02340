// A state of the job with one field changed, and what is answered to a row that is offered to it.
use crate::heads::Change;
use crate::offers;
use ground::Refusal;
use row_state::State;
use row_values::Row;

// The refusal of the file, or the one that the state meets, whatever row is offered to it: 7 or 11. 8 and 9 come after
// these and are the row's own.
pub fn offer(job: &[u8], change: Change) -> Result<(), Refusal> {
    let offered = offers::offer(job, change.before)?;
    let row = Row {
        commands: 0,
        pilots: 6,
    };
    match job::step(job, changed(offered.after, change), row) {
        Err(r) if !matches!(r.number, constants::WRONG_ROW | constants::POWER_TOO_LOW) => Err(r),
        _ => Ok(()),
    }
}

// The fields are counted in the order in which the state has them: 6 and 7 are the run's, 8 and 9 the opening's, 10 to
// 14 the set's, 15 and 16 the filter's. As 17 the level is no number, and as 18 it is without end.
// Kept: the number is the input's own and only this match reads it, so an enum between would list the fields twice
fn changed(before: State, change: Change) -> State {
    let mut st = before;
    let low = change.value.to_le_bytes()[0];
    match change.field {
        0 => st.row = change.value,
        1 => st.sent = 0 < change.value,
        2 => st.power = change.value.cast_signed(),
        3 => st.held = change.value.cast_signed(),
        4 => st.pilots = low,
        5 => st.limited = 0 < change.value,
        6 => st.run.length = low,
        7 => st.run.left = low,
        8 => st.opening.seen = 0 < change.value,
        9 => st.opening.command = low.cast_signed(),
        10 => st.set.a = u32::from(low),
        11 => st.set.b = u32::from(low),
        12 => st.set.c = u32::from(low),
        13 => st.set.d = u32::from(low),
        14 => st.set.spoilt = 0 < change.value,
        15 => st.filter.level = change.level,
        16 => st.filter.count = change.value,
        17 => st.filter.level = f64::NAN,
        18 => st.filter.level = f64::INFINITY,
        _ => {}
    }
    st
}
