// The rules of a row and of a run, as definitions, and what they imply over every history. No code: the types that rows
// and runs answer in, and the books that a row keeps.
#![tactic(auto)]

use ground::Refusal;
use row_state::State;
use row_values::Answer;

// What a step answers: the next state and the row's answer, or a refusal.
pub type Stepped = Result<(State, Answer), Refusal>;

// What a run answers: the state after all its rows; the state after the rows before one that was refused, and its
// refusal; or a refusal of the whole run, which has changed nothing.
// Kept: a run that a row ends hands out both a state and a refusal, which no Result does; `run_of` speaks of all three.
// DECISIONS: refusals-state-kept, gaps-run-two-senses
#[derive(Clone, Copy)]
pub enum Ran {
    Done(State),
    Stopped(State, Refusal),
    Refused(Refusal),
}

// The books after a row: whether a row has been sent, control power, what is withheld, the last sent row's pilot bits,
// and whether this row was limited.
// Kept: flags beside values of which none is absent; control power is the start until a row is sent.
#[derive(Clone, Copy)]
pub struct Books {
    pub sent: bool,
    pub power: i32,
    pub held: i32,
    pub pilots: u8,
    pub limited: bool,
}
