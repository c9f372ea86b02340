// A row of a job and a row's answer, each as one value. Here alone stands how many bytes a row has, how many numbers an
// answer has, and in which order.
#![tactic(auto)]

ghost use Rattle.std.specs.Prelude.{◌≡◌, ◌+◌, ◌*◌, ◌≤◌, length};
ghost use Rattle.std.proofs.lemmas.List.Edits.{sets};
ghost use Rattle.constants.specs.Sizes.{answer_numbers};
ghost use Rattle.row_values.specs.Rows.{row_read, rows_offered};
ghost use Rattle.row_values.specs.Answers.{numbers, answer_read, answer_put};

// A row's bytes: its commands, a bit for each link set, and its pilot bits.
#[derive(Clone, Copy, Default)]
pub struct Row {
    pub commands: u8,
    pub pilots: u8,
}

// A row's answer: state (0 gap, 1 sent, 2 limited), command, powers of the control channel, the data channels and all
// of them, and what is withheld so far; then the ids that put its slot into an uplink gap and into a downlink gap, each
// a sum of 2^(id − 1). Absent powers are 0.
// Kept: eight numbers, the state among them, since `uplink_run` hands them to C in a buffer of numbers.
#[derive(Clone, Copy, Default)]
pub struct Answer {
    pub state: i32,
    pub command: i32,
    pub dpcch: i32,
    pub dpdch: i32,
    pub total: i32,
    pub held: i32,
    pub uplink: i32,
    pub downlink: i32,
}

// How many rows a part of a job offers. Bytes left over at its end are a row that lacks some of its own.
#[tactic(auto, unfolding(crate::specs::Rows::rows_offered, crate::specs::Rows::with_cut))]
pub fn rows_offered(rows: &[u8]) -> usize
    ensures { result ≡ rows_offered rows.now }
{
    rows.len().div_ceil(constants::ROW_BYTES)
}

// Row k of a part, from 0, and a row of zeros where the part has no whole row k.
#[tactic(auto, unfolding(crate::specs::Rows::row_read))]
pub fn row_at(rows: &[u8], k: usize) -> Row
    ensures { result ≡ row_read rows.now k }
{
    if k < rows.len() / constants::ROW_BYTES {
        let at = constants::ROW_BYTES * k;
        return Row {
            commands: rows[at],
            pilots: rows[at + 1],
        };
    }
    Row::default()
}

// Answer k of a buffer, from 0, and an answer of zeros where the buffer has no whole answer k.
// Kept: `row_at` shares its one test alone; type, size and each field differ, and a trait for both would be longer.
#[tactic(auto, unfolding(crate::specs::Answers::answer_read))]
pub fn answer_at(answers: &[i32], k: usize) -> Answer
    ensures { result ≡ answer_read answers.now k }
{
    if k < answers.len() / constants::ANSWER_NUMBERS {
        let at = constants::ANSWER_NUMBERS * k;
        return Answer {
            state: answers[at],
            command: answers[at + 1],
            dpcch: answers[at + 2],
            dpdch: answers[at + 3],
            total: answers[at + 4],
            held: answers[at + 5],
            uplink: answers[at + 6],
            downlink: answers[at + 7],
        };
    }
    Answer::default()
}

// An answer's numbers from a position on.
// Kept: eight stores take 2.6 ns a row; an array of the eight, copied as a slice, goes over the stack and takes 5.5 ns.
fn store(out: &mut [i32], at: usize, a: Answer)
    requires { at + answer_numbers ≤ length out.old }
    ensures { out.new ≡ sets out.old at (numbers a) }
{
    out[at] = a.state;
    out[at + 1] = a.command;
    out[at + 2] = a.dpcch;
    out[at + 3] = a.dpdch;
    out[at + 4] = a.total;
    out[at + 5] = a.held;
    out[at + 6] = a.uplink;
    out[at + 7] = a.downlink;
}

// Answer k of a buffer is set. A buffer that has no room for it is left as it was.
#[tactic(auto, unfolding(crate::specs::Answers::answer_put))]
pub fn put(out: &mut [i32], k: usize, a: Answer)
    ensures { out.new ≡ answer_put out.old k a }
{
    if k < out.len() / constants::ANSWER_NUMBERS {
        store(out, constants::ANSWER_NUMBERS * k, a);
    }
}
