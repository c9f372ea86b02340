// The table of contents of a job file: refusals 1 and 2, and where the bodies lie.
#![tactic(auto)]

ghost use Rattle.std.specs.Prelude.{◌≡◌, ◌+◌, ◌≤◌, length};
ghost use Rattle.job_contents.specs.Contents.{quad_at, entry_at, end_of, wrong_entry, entries_of};
ghost use Rattle.job_contents.specs.Contents.{ContentsTold};
ghost use Rattle.constants.specs.Refusals.{refusal, wrong_contents};

use ground::Refusal;

// One entry of the contents: what its body is, where it begins and how long it is.
// Kept: its kind is a number, for any byte may stand there, and `wrong_entry` compares it with the right one.
#[derive(Clone, Copy)]
pub struct Entry {
    pub kind: u8,
    pub offset: u32,
    pub length: u32,
}

// Where the bodies begin: the settings, the triples in the midst of them, the gap records, the rows. Each body ends
// where the next begins, and the rows end the file.
#[derive(Clone, Copy)]
pub struct Bodies {
    pub settings: usize,
    pub gains: usize,
    pub records: usize,
    pub rows: usize,
}

// The number whose four bytes start here.
fn quad_at(job: &[u8], at: usize) -> u32
    requires { at + 4 ≤ length job.now }
    ensures { result ≡ quad_at job.now at }
{
    u32::from_le_bytes([job[at], job[at + 1], job[at + 2], job[at + 3]])
}

// The entry that starts at a byte.
#[tactic(auto, unfolding(crate::specs::Contents::entry_at))]
fn entry_at(job: &[u8], at: usize) -> Entry
    requires { at + 9 ≤ length job.now }
    ensures { result ≡ entry_at job.now at }
{
    let offset = quad_at(job, at + 1);
    let length = quad_at(job, at + 5);
    Entry {
        kind: job[at],
        offset,
        length,
    }
}

// Where a body ends. Two numbers of four bytes each: their sum is formed in eight, where it cannot wrap.
// DECISIONS: file-ends-whole
fn end(e: Entry) -> usize
    ensures { result ≡ end_of e }
{
    e.offset as usize + e.length as usize
}

// The refusal of contents that are wrong at an entry, or at place 0.
// Kept: `job_writer` says these three lines of its own; a public function would be one promise more, and longer.
fn wrong(place: usize) -> Refusal
    ensures { result ≡ refusal wrong_contents place }
{
    Refusal {
        number: constants::WRONG_CONTENTS,
        place,
    }
}

// Whether an entry has another kind or another offset than it should, or its body goes past the end of the file.
#[tactic(auto, unfolding(crate::specs::Contents::wrong_entry))]
fn wrong_entry(size: usize, kind: u8, begin: usize, e: Entry) -> bool
    ensures { result ≡ wrong_entry size kind begin e }
{
    let last = end(e);
    (e.kind != kind) | (e.offset as usize != begin) | (size < last)
}

// The three entries in order, in a file of this many bytes: each body starts where the one before ends.
#[tactic(auto, unfolding(crate::specs::Contents::entries_of))]
fn entries(size: usize, one: Entry, two: Entry, three: Entry) -> Result<Bodies, Refusal>
    ensures { result ≡ entries_of size one two three }
{
    let records = end(one);
    let rows = end(two);
    let last = end(three);
    if wrong_entry(size, 1, constants::CONTENTS_BYTES, one)
        | (one.length as usize != constants::SETTINGS_BYTES)
    {
        return Err(wrong(1));
    }
    if wrong_entry(size, 2, records, two) | (two.length as usize % constants::RECORD_BYTES != 0) {
        return Err(wrong(2));
    }
    if wrong_entry(size, 3, rows, three)
        | (three.length as usize % constants::ROW_BYTES != 0)
        | (last != size)
    {
        return Err(wrong(3));
    }
    Ok(Bodies {
        settings: constants::CONTENTS_BYTES,
        gains: constants::CONTENTS_BYTES + constants::GAINS_PLACE,
        records,
        rows,
    })
}

// The contents of any bytes.
#[tactic(auto, using(crate::proofs::Laws::Contents::contents_told), unfolding(crate::specs::Contents::contents_of))]
pub fn read(job: &[u8]) -> Result<Bodies, Refusal>
    ensures { ContentsTold job.now result }
{
    if constants::FILE_MOST < job.len() {
        return Err(Refusal {
            number: constants::FILE_TOO_LONG,
            place: 0,
        });
    }
    if job.len() < constants::CONTENTS_BYTES || job[0] != 1 || job[1] != 3 {
        return Err(wrong(0));
    }
    let one = entry_at(job, 2);
    let two = entry_at(job, 11);
    let three = entry_at(job, 20);
    entries(job.len(), one, two, three)
}
