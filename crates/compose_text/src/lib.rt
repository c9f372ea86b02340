// A job's text: the file that its lines make, into lent bytes, or why there is none.
#![tactic(auto)]

ghost use Rattle.std.specs.Prelude.{◌≡◌, ℕ, ◌+◌, ◌≤◌, List, Some, nat_lt, length};
ghost use Rattle.constants.specs.Sizes.{record_bytes, text_most};
ghost use Rattle.compose_text.specs.Composing.{Progress, all, begun, rows_bytes, advanced, read_of};
ghost use Rattle.compose_text.specs.Composing.{ended, composed_by, composed_of};
ghost use Rattle.compose_text.specs.Sentences.{error_text};
ghost use Rattle.compose_text.specs.Standing.{Appended, stage_number, Stands, Takes, advanced_by, Comes, Finishing, used_most};

use compose_lines::Item;
use gap_records::Sequence;
use ground::Refusal;
use job_settings::Settings;
use power::Triple;
use std::fmt::{self, Display, Formatter, Write};

// The bytes of gap records and rows that a file has at most.
const BODIES_MOST: usize = constants::FILE_MOST
    - constants::CONTENTS_BYTES
    - constants::SETTINGS_BYTES;

// Why a text gives no file: the first line that is unreadable, from 1, the refusal of the file, or that the text is
// longer than any that is read.
#[derive(Clone, Copy)]
pub enum ComposeError {
    Unreadable(usize),
    Refused(Refusal),
    TooLong,
}

// The sentence that a program prints of it.
impl Display for ComposeError {
    ghost output = { λ e. Some (error_text e) };

    fn fmt<W: Write>(&self, f: &mut Formatter<W>) -> fmt::Result {
        match self {
            ComposeError::Unreadable(line) => write!(f, "line {line} unreadable"),
            ComposeError::Refused(refusal) => write!(f, "{refusal}"),
            ComposeError::TooLong => write!(f, "input too long"),
        }
    }
}

// What composing answers: how many bytes the file has, or why there is none.
pub type Composed = Result<usize, ComposeError>;

// How far the lines of a text have come: to nothing, to the settings, to the triple or to rows.
#[derive(Clone, Copy)]
enum Stage {
    Nothing,
    Settings,
    Gain,
    Rows,
}

impl Stage {
    // Whether the settings and the triple are there.
    fn has_gain(self) -> bool
        ensures { result ≡ nat_lt 1 (stage_number self) }
    {
        matches!(self, Stage::Gain | Stage::Rows)
    }
}

// Where the reading of a text stands: how far its lines have come; the settings and the triple; the bytes of its gap
// records, and of gap records and rows, counted also where they found no room.
// Kept: a step may add what one line adds (`Grows`), so `used ≤ used_most` cannot be proved of its result alone.
#[derive(Clone, Copy)]
struct Standing {
    stage: Stage,
    settings: Settings,
    gain: Triple,
    records: usize,
    used: usize,
}

// Appends bytes where they have room, and answers the place after them, which counts them in either case.
// Kept: the place also counts bytes that found no room (compose-all-counted), which no slice or pen does.
// DECISIONS: compose-all-counted
fn append(bodies: &mut [u8], at: usize, added: &[u8]) -> usize
    requires { (at ≤ used_most) × (length added.now ≤ record_bytes) }
    ensures { Appended result bodies.new bodies.old at added.now }
{
    let next = at + added.len();
    if next <= bodies.len() {
        bodies[at..next].copy_from_slice(added);
    }
    next
}

// Appends so many rows of one kind where they have room, and answers the place after them.
fn append_rows(bodies: &mut [u8], at: usize, count: u32, commands: u8, pilots: u8) -> usize
    requires { at ≤ used_most }
    ensures { Appended result bodies.new bodies.old at (rows_bytes count commands pilots) }
{
    let n = count as usize;
    let next = at + constants::ROW_BYTES * n;
    if bodies.len() < next {
        return next;
    }
    for k in 0..n {
        let place = at + constants::ROW_BYTES * k;
        bodies[place] = commands;
        bodies[place + 1] = pilots;
    }
    next
}

// The settings, where no line so far has given anything.
// Kept: like the next but for its stage and its field; one function of both would be longer than the two.
fn take_settings(st: Standing, s: Settings) -> Option<Standing>
    ensures { (bodies : List ℕ) → Takes st (λ p. advanced p (Item.Settings s)) bodies result bodies }
{
    match st.stage {
        Stage::Nothing => Some(Standing {
            stage: Stage::Settings,
            settings: s,
            ..st
        }),
        _ => None,
    }
}

// The triple, where the lines so far have given the settings alone.
fn take_gain(st: Standing, t: Triple) -> Option<Standing>
    ensures { (bodies : List ℕ) → Takes st (λ p. advanced p (Item.Gain t)) bodies result bodies }
{
    match st.stage {
        Stage::Settings => Some(Standing {
            stage: Stage::Gain,
            gain: t,
            ..st
        }),
        _ => None,
    }
}

// A gap record after the lines so far.
fn take_gap(st: Standing, q: Sequence, bodies: &mut [u8]) -> Option<Standing>
    requires { st.used ≤ used_most }
    ensures { Takes st (λ p. advanced p (Item.Gap q)) bodies.old result bodies.new }
{
    match st.stage {
        Stage::Gain => {
            let record = job_file::record_bytes(q);
            let used = append(bodies, st.used, &record);
            Some(Standing {
                records: used,
                used,
                ..st
            })
        }
        _ => None,
    }
}

// Rows of one kind after the lines so far.
fn take_rows(
    st: Standing,
    count: u32,
    commands: u8,
    pilots: u8,
    bodies: &mut [u8],
) -> Option<Standing>
    requires { st.used ≤ used_most }
    ensures { Takes st (λ p. advanced p (Item.Rows count commands pilots)) bodies.old result
        bodies.new }
{
    if !st.stage.has_gain() {
        return None;
    }
    let used = append_rows(bodies, st.used, count, commands, pilots);
    Some(Standing {
        stage: Stage::Rows,
        used,
        ..st
    })
}

// What a line gives, after the lines so far.
fn take_item(st: Standing, item: Item, bodies: &mut [u8]) -> Option<Standing>
    requires { st.used ≤ used_most }
    ensures { Takes st (λ p. advanced p item) bodies.old result bodies.new }
{
    match item {
        Item::Blank => Some(st),
        Item::Settings(s) => take_settings(st, s),
        Item::Gain(t) => take_gain(st, t),
        Item::Gap(q) => take_gap(st, q, bodies),
        Item::Rows(count, commands, pilots) => take_rows(st, count, commands, pilots, bodies),
        Item::Unreadable => None,
    }
}

// A line by its bytes before a comment, after the lines so far.
fn take_line(st: Standing, line: &[u8], clear: bool, bodies: &mut [u8]) -> Option<Standing>
    requires { st.used ≤ used_most }
    ensures { Takes st (advanced_by clear line.now) bodies.old result bodies.new }
{
    if clear {
        take_item(st, compose_lines::item_of(line), bodies)
    } else {
        None
    }
}

// Before the first line.
fn nothing_yet() -> Standing
    ensures { (bodies : List ℕ) → Stands result bodies begun }
{
    Standing {
        stage: Stage::Nothing,
        settings: Settings {
            pca: 0,
            step: 0,
            itp: 0,
            rpp: 0,
            links: 0,
            maximum: 0,
            start: 0,
        },
        gain: Triple {
            betac: 0,
            betad: 0,
            channels: 0,
        },
        records: 0,
        used: 0,
    }
}

// Every line in order, up to the first that is unreadable.
fn read_lines(text: &[u8], bodies: &mut [u8]) -> Result<Standing, usize>
    requires { length text.now ≤ text_most }
    ensures { Comes (read_of text.now) result bodies.new }
{
    let mut st = nothing_yet();
    let mut at = 0;
    let mut n = 1;
    while at < text.len() {
        let line = words::line_at(text, at);
        let Some(next) = take_line(st, &text[at..line.end], line.clear, bodies) else {
            return Err(n);
        };
        st = next;
        at = line.next;
        n += 1;
    }
    if st.stage.has_gain() { Ok(st) } else { Err(n) }
}

// The file of what all lines have given.
fn finish(st: Standing, bodies: &[u8], out: &mut [u8]) -> Composed
    requires { Finishing st bodies.now }
    ensures { (p : Progress) → Stands st bodies.now p →
        ended result out.new ≡ composed_by (all p) out.old }
{
    if bodies.len() < st.used {
        return Err(ComposeError::Refused(Refusal {
            number: constants::FILE_TOO_LONG,
            place: 0,
        }));
    }
    let settings = job_file::settings_bytes(st.settings, st.gain);
    let records = &bodies[..st.records];
    let rows = &bodies[st.records..st.used];
    job_writer::write(1, &settings, records, rows, out).map_err(ComposeError::Refused)
}

// Composes the job that a text describes.
pub fn compose(text: &[u8], out: &mut [u8]) -> Composed
    ensures { ended result out.new ≡ composed_of text.now out.old }
{
    if constants::TEXT_MOST < text.len() {
        return Err(ComposeError::TooLong);
    }
    let mut bodies = [0u8; BODIES_MOST];
    let st = read_lines(text, &mut bodies).map_err(ComposeError::Unreadable)?;
    finish(st, &bodies, out)
}
