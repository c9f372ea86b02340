// Writing jobs: the file that settings, gap records and rows make, into lent bytes, or the refusal that a reader of
// that file would give.
#![tactic(auto)]

ghost use Rattle.std.specs.Prelude.{◌+◌, ◌≤◌, ◌≡◌, ltb, length};
ghost use Rattle.std.proofs.lemmas.List.Edits.{sets};
ghost use Rattle.constants.specs.Refusals.{refusal, wrong_contents};
ghost use Rattle.constants.specs.Sizes.{file_most, contents_bytes};
ghost use Rattle.job_file.specs.File.{entry_bytes, contents_for, file_of, file_size};
ghost use Rattle.job.specs.Load.{loaded_of};
ghost use Rattle.job_writer.specs.Writing.{WriteTold};
ghost use Rattle.job_writer.specs.Parts.{contents_by};

use ground::Refusal;
use job::Loaded;
use job_contents::Bodies;

// Whether parts of these lengths make a file of too many bytes. Step by step, so that no sum can wrap.
// DECISIONS: writing-size-first
fn too_long(settings: usize, records: usize, rows: usize) -> bool
    ensures { result ≡ ltb file_most (contents_bytes + settings + records + rows) }
{
    let room = constants::FILE_MOST - constants::CONTENTS_BYTES;
    room < settings || room - settings < records || room - settings - records < rows
}

// The refusal of contents that are wrong at an entry, or at place 0.
// Kept: three lines in two crates; a public one would be one promise more, with its edits, for three calls.
fn wrong(place: usize) -> Refusal
    ensures { result ≡ refusal wrong_contents place }
{
    Refusal {
        number: constants::WRONG_CONTENTS,
        place,
    }
}

// What a reader finds in the contents of a file of such parts.
// Kept: kind and parts one by one, as `uplink_write` is lent them by C; here only their lengths are asked.
#[tactic(auto, unfolding(crate::specs::Parts::contents_by))]
fn contents(kind: u8, settings: usize, records: usize, rows: usize) -> Result<Bodies, Refusal>
    ensures { result ≡ contents_by kind settings records rows }
{
    if too_long(settings, records, rows) {
        return Err(Refusal {
            number: constants::FILE_TOO_LONG,
            place: 0,
        });
    }
    if kind != 1 {
        return Err(wrong(0));
    }
    if settings != constants::SETTINGS_BYTES {
        return Err(wrong(1));
    }
    if records % constants::RECORD_BYTES != 0 {
        return Err(wrong(2));
    }
    if rows % constants::ROW_BYTES != 0 {
        return Err(wrong(3));
    }
    Ok(Bodies {
        settings: constants::CONTENTS_BYTES,
        gains: constants::CONTENTS_BYTES + constants::GAINS_PLACE,
        records: constants::CONTENTS_BYTES + settings,
        rows: constants::CONTENTS_BYTES + settings + records,
    })
}

// What a load of the file says, from its parts.
fn load(kind: u8, settings: &[u8], records: &[u8], rows: &[u8]) -> Loaded
    ensures { result ≡ loaded_of (file_of kind settings.now records.now rows.now) }
{
    let b = contents(kind, settings.len(), records.len(), rows.len())?;
    job::judged(b, settings, records, rows)
}

// Bytes, from a place on.
// Kept: `entry`, `head` and `file` promise `sets out.old` at a place, so each needs its place in the lent bytes.
fn part(out: &mut [u8], at: usize, bytes: &[u8])
    requires { at + length bytes.now ≤ length out.old }
    ensures { out.new ≡ sets out.old at bytes.now }
{
    out[at..at + bytes.len()].copy_from_slice(bytes);
}

// One entry of the contents: its numbers with the low byte first.
fn entry(out: &mut [u8], at: usize, kind: u8, offset: usize, size: usize)
    requires { (at + 9 ≤ length out.old) × (offset + size ≤ file_most) }
    ensures { out.new ≡ sets out.old at (entry_bytes kind offset size) }
{
    let o = (offset as u32).to_le_bytes();
    let s = (size as u32).to_le_bytes();
    part(
        out,
        at,
        &[kind, o[0], o[1], o[2], o[3], s[0], s[1], s[2], s[3]],
    );
}

// The contents of a file whose parts have these lengths.
fn head(out: &mut [u8], kind: u8, settings: usize, records: usize, rows: usize)
    requires { (contents_bytes ≤ length out.old) × (contents_bytes + settings + records + rows ≤ file_most) }
    ensures { out.new ≡ sets out.old 0 (contents_for kind settings records rows) }
{
    let second = constants::CONTENTS_BYTES + settings;
    let third = second + records;
    part(out, 0, &[kind, 3]);
    entry(out, 2, 1, constants::CONTENTS_BYTES, settings);
    entry(out, 11, 2, second, records);
    entry(out, 20, 3, third, rows);
}

// The file, from the first byte on.
fn file(out: &mut [u8], kind: u8, settings: &[u8], records: &[u8], rows: &[u8])
    requires { (file_size settings.now records.now rows.now ≤ length out.old) ×
        (file_size settings.now records.now rows.now ≤ file_most) }
    ensures { out.new ≡ sets out.old 0
        (file_of kind settings.now records.now rows.now) }
{
    let second = constants::CONTENTS_BYTES + settings.len();
    let third = second + records.len();
    head(out, kind, settings.len(), records.len(), rows.len());
    part(out, constants::CONTENTS_BYTES, settings);
    part(out, second, records);
    part(out, third, rows);
}

// Writes the file that a kind and three parts make, or refuses as a reader of that file would; then 12 where it has
// more bytes than are lent.
pub fn write(
    kind: u8,
    settings: &[u8],
    records: &[u8],
    rows: &[u8],
    out: &mut [u8],
) -> Result<usize, Refusal>
    ensures { WriteTold kind settings.now records.now rows.now
        out.old result out.new }
{
    load(kind, settings, records, rows)?;
    let size = constants::CONTENTS_BYTES + settings.len() + records.len() + rows.len();
    if out.len() < size {
        return Err(Refusal {
            number: constants::SHORT_BYTES,
            place: size,
        });
    }
    file(out, kind, settings, records, rows);
    Ok(size)
}
