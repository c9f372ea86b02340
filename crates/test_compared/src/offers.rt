// The rows of a file, offered one by one.
use crate::digest::{self, Digest};
use ground::Refusal;
use row_state::State;
use row_values::{Answer, Row};

// What is answered to rows that are offered: the state after them, and the digest of their answers and refusals.
#[derive(Clone, Copy)]
pub struct Offered {
    pub after: State,
    pub digest: Digest,
}

// So many rows of a file, or all where it has fewer; or the refusal of the file.
#[tactic(auto, unfolding(job::specs::Load::OnJob))]
pub fn offer(job: &[u8], most: usize) -> Result<Offered, Refusal> {
    let (_, bodies) = job::load(job)?;
    let rows = &job[bodies.rows..];
    let mut offered = Offered {
        after: job::start(job)?,
        digest: digest::NOTHING,
    };
    for k in 0..(rows.len() / constants::ROW_BYTES).min(most) {
        offered = with_row(job, offered, row_values::row_at(rows, k));
    }
    Ok(offered)
}

// One row more. A refused row leaves the state as it was, and the next one is offered to it.
fn with_row(job: &[u8], before: Offered, row: Row) -> Offered {
    match job::step(job, before.after, row) {
        Ok((after, answer)) => Offered {
            after,
            digest: with_answer(before.digest, answer),
        },
        Err(r) => Offered {
            after: before.after,
            digest: before.digest.refusal(r),
        },
    }
}

// All eight numbers of an answer.
fn with_answer(before: Digest, answer: Answer) -> Digest {
    before.numbers(&[
        answer.state,
        answer.command,
        answer.dpcch,
        answer.dpdch,
        answer.total,
        answer.held,
        answer.uplink,
        answer.downlink,
    ])
}
