// W-202: writing jobs, for C and Rust. A file from three parts, and the parts that are made of numbers.
ghost use Rattle.std.specs.Prelude.{◌≡◌};
ghost use Rattle.power.specs.Gain.{triple};
ghost use Rattle.job_file.specs.Numbers.{settings_bytes_of, record_bytes_of};
ghost use Rattle.job_writer.specs.Writing.{placed, made_of};
ghost use Rattle.exports.specs.Writes.{file_told, written_by, part_told, part_by};

use gap_records::Sequence;
use ground::Refusal;
use job_settings::Settings;
use power::Triple;

// The file that a kind and three parts make, from the first lent byte on; its size is left behind a pointer.
pub fn uplink_write(
    kind: u8,
    settings: &[u8],
    records: &[u8],
    rows: &[u8],
    file: &mut [u8],
    size: &mut usize,
    place: &mut usize,
) -> u8
    ensures { file_told result place.new size.new file.new ≡
        written_by (made_of kind settings.now records.now rows.now
        file.old) }
{
    let made = job_writer::write(kind, settings, records, rows, file);
    *size = made.unwrap_or(0);
    crate::leave(made.err(), place)
}

// Twelve bytes from the first lent byte on, or 12 where fewer are lent.
// DECISIONS: writing-twelve-lent
fn put(twelve: [u8; 12], bytes: &mut [u8], place: &mut usize) -> u8
    ensures { part_told result place.new bytes.new ≡ part_by (placed twelve bytes.old) }
{
    if bytes.len() < 12 {
        let short = Refusal {
            number: constants::SHORT_BYTES,
            place: 12,
        };
        return crate::leave(Some(short), place);
    }
    bytes[0..12].copy_from_slice(&twelve);
    crate::leave(None, place)
}

// The twelve bytes of settings and their triple.
// Kept: the C interface hands each number over on its own (uplink_settings_bytes)
pub fn uplink_settings_bytes(
    pca: u8,
    step: u8,
    itp: u8,
    rpp: u8,
    links: u8,
    betac: u8,
    betad: u8,
    channels: u8,
    maximum: i8,
    start: i32,
    bytes: &mut [u8],
    place: &mut usize,
) -> u8
    ensures { part_told result place.new bytes.new ≡
        part_by (placed (settings_bytes_of
        (record { pca = pca; step = step; itp = itp; rpp = rpp; links = links; maximum = maximum; start = start })
        (triple betac betad channels)) bytes.old) }
{
    let s = Settings {
        pca,
        step,
        itp,
        rpp,
        links,
        maximum,
        start,
    };
    let t = Triple {
        betac,
        betad,
        channels,
    };
    put(job_file::settings_bytes(s, t), bytes, place)
}

// The twelve bytes of a gap record.
// Kept: the C interface hands each number over on its own (uplink_record_bytes)
pub fn uplink_record_bytes(
    id: u8,
    direction: u8,
    tgsn: u8,
    tgl1: u8,
    tgl2: u8,
    tgpl: u8,
    tgprc: u16,
    tgd: u16,
    start: u16,
    bytes: &mut [u8],
    place: &mut usize,
) -> u8
    ensures { part_told result place.new bytes.new ≡
        part_by (placed (record_bytes_of (record {
          id = id;
          direction = direction;
          tgsn = tgsn;
          tgl1 = tgl1;
          tgl2 = tgl2;
          tgpl = tgpl;
          tgprc = tgprc;
          tgd = tgd;
          start = start;
        })) bytes.old) }
{
    let q = Sequence {
        id,
        direction,
        tgsn,
        tgl1,
        tgl2,
        tgpl,
        tgprc,
        tgd,
        start,
    };
    put(job_file::record_bytes(q), bytes, place)
}
