// The listing of a job as bytes, in pieces: the header, then some rows at a time, then the last line, each in a lent
// buffer.
#![tactic(auto)]

ghost use Rattle.std.specs.Prelude.{◌≡◌, min, ◌+◌, ◌≤◌, length};
ghost use Rattle.constants.specs.Sizes.{line_room, piece_least, rows_most};
ghost use Rattle.row_rules.specs.Runs.{ended, run_of};
ghost use Rattle.job.specs.Load.{gains_body, records_body, row_count, loaded_of};
ghost use Rattle.job_contents.specs.Contents.{Lies};
ghost use Rattle.listing.specs.Listing.{job_gain};
ghost use Rattle.listing.specs.Pieces.{made, placed_in, rows_at_once, rows_part, if_taken, some_rows, PieceTold};
ghost use Rattle.listing.specs.Asks.{Onward, taken_by, closed_at, Showing, rows_taken};
ghost use Rattle.listing.specs.Asks.{HasRows, rows_bytes, Listable, part_at};

use job_contents::Bodies;
use job_settings::Settings;
use row_rules::Ran;
use row_state::State;

// Where a listing stands: before its header, after the rows of a state, or over.
#[derive(Clone, Copy)]
pub enum Stand {
    Before,
    After(State),
    Over,
}

// A piece: how many bytes it has and where the listing stands after it; or the number of bytes that a buffer has to
// have.
pub type Written = Result<(usize, Stand), usize>;

// How many rows the next piece has.
fn rows_at_once(left: usize, size: usize) -> usize
    requires { piece_least ≤ size }
    ensures { result ≡ rows_at_once left size }
{
    left.min((size / constants::LINE_ROOM - 1).min(constants::PIECE_ROWS))
}

// How many rows a run took.
fn rows_taken(row: u32, ran: Ran) -> u32
    requires { Onward row ran }
    ensures { result ≡ taken_by row ran }
{
    match ran {
        Ran::Done(st) | Ran::Stopped(st, _) => st.row - row,
        Ran::Refused(_) => 0,
    }
}

// What follows the lines of some rows, and where the listing stands then.
fn close(ran: Ran, count: usize, at: usize, out: &mut [u8]) -> Written
    requires { at + line_room ≤ length out.old }
    ensures { made result out.new ≡ closed_at out.old at count ran }
{
    match ran {
        Ran::Done(st) => {
            if 0 < count {
                return Ok((at, Stand::After(st)));
            }
            Ok((listing_text::ending(out, at, st.row, st.held), Stand::Over))
        }
        Ran::Stopped(_, r) | Ran::Refused(r) => {
            Ok((listing_text::refusal_line(out, at, r), Stand::Over))
        }
    }
}

// The rows that a run took, as lines, and what follows them.
fn show(sends: bool, row: u32, count: usize, ran: Ran, answers: &[i32], out: &mut [u8]) -> Written
    requires { Showing row ran answers.now out.old }
    ensures { made result out.new ≡
        placed_in out.old (rows_part sends row count (rows_taken row ran answers.now)) }
{
    let k = rows_taken(row, ran) as usize;
    let at = listing_text::lines(
        out,
        0,
        sends,
        row,
        &answers[..constants::ANSWER_NUMBERS * k],
    );
    close(ran, count, at, out)
}

// A job that is taken: its bytes, what they set, and where its bodies lie.
#[derive(Clone, Copy)]
struct Job<'a> {
    bytes: &'a [u8],
    settings: Settings,
    bodies: Bodies,
    ghost lies: { Lies bytes.now bodies },
    ghost few: { row_count bytes.now bodies ≤ rows_most },
}

impl Job<'_> {
    // Its triple.
    fn gains(&self) -> &[u8]
        ensures { result.now ≡ gains_body self.now.bytes.now self.now.bodies }
    {
        let start = self.bodies.gains;
        &self.bytes[start..start + constants::TRIPLE_BYTES]
    }

    // Whether its gain carries data.
    fn sends_data(&self) -> bool
        ensures { let j = self.now in
            result ≡ (job_gain j.bytes.now j.settings j.bodies).carries_data }
    {
        job_settings::gain_at(self.gains(), self.settings.maximum, 0).carries_data
    }

    // So many of its rows, from a row on, after a state.
    fn run(&self, st: State, row: usize, count: usize, answers: &mut [i32]) -> Ran
        requires { HasRows self.now.bytes.now self.now.bodies row count }
        ensures { let j = self.now in let bytes = j.bytes.now in ended result answers.new ≡
            run_of j.settings (gains_body bytes j.bodies) (records_body bytes j.bodies) st
            (rows_bytes bytes j.bodies row count) answers.old }
    {
        let start = self.bodies.rows + constants::ROW_BYTES * row;
        row::runs::run(
            self.settings,
            self.gains(),
            &self.bytes[self.bodies.records..self.bodies.rows],
            st,
            &self.bytes[start..start + constants::ROW_BYTES * count],
            answers,
        )
    }

    // Some of its rows after a state, their numbers in a buffer that has room for them.
    fn some_rows(&self, st: State, answers: &mut [i32], out: &mut [u8]) -> Written
        requires { Listable answers.old out.old }
        ensures { let j = self.now in made result out.new ≡
            placed_in out.old (some_rows j.settings j.bodies j.bytes.now st (length out.old)) }
    {
        let all = (self.bytes.len() - self.bodies.rows) / constants::ROW_BYTES;
        let done = (st.row as usize).min(all);
        let count = rows_at_once(all - done, out.len());
        let ran = self.run(st, done, count, answers);
        show(self.sends_data(), st.row, count, ran, answers, out)
    }

    // A piece by where the listing stands. The numbers of its rows have a buffer of their own.
    fn piece(&self, stand: Stand, out: &mut [u8]) -> Written
        requires { piece_least ≤ length out.old }
        ensures { let j = self.now in made result out.new ≡
            placed_in out.old (part_at j.settings j.bodies j.bytes.now stand (length out.old)) }
    {
        match stand {
            Stand::Before => Ok((
                listing_text::header(out, 0),
                Stand::After(row_state::start(self.settings)),
            )),
            Stand::After(st) => {
                let mut answers = [0i32; constants::PIECE_NUMBERS];
                self.some_rows(st, &mut answers, out)
            }
            Stand::Over => Ok((0, Stand::Over)),
        }
    }
}

// A piece of a job that is taken, or the refusal of the file alone.
fn loaded_piece(job: &[u8], stand: Stand, out: &mut [u8]) -> Written
    requires { piece_least ≤ length out.old }
    ensures { let bytes = job.now in made result out.new ≡ placed_in out.old
        (if_taken (loaded_of bytes) (λ s b. part_at s b bytes stand (length out.old))) }
{
    let loaded = job::load(job);
    let Ok((settings, bodies)) = loaded else {
        return Ok((
            listing_text::refusal_line(out, 0, job::refusal(loaded)),
            Stand::Over,
        ));
    };
    let taken = Job {
        bytes: job,
        settings,
        bodies,
    };
    taken.piece(stand, out)
}

// The next piece of the listing of a job. Afterwards the buffer has its bytes, then what stood there; one that is too
// short is left as it was.
pub fn piece(job: &[u8], stand: Stand, out: &mut [u8]) -> Written
    ensures { PieceTold job.now stand out.old result out.new }
{
    if out.len() < constants::PIECE_LEAST {
        return Err(constants::PIECE_LEAST);
    }
    match stand {
        Stand::Before | Stand::After(_) => loaded_piece(job, stand, out),
        Stand::Over => Ok((0, Stand::Over)),
    }
}
