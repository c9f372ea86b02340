// The numbers of a job as the bytes of its file: the settings with their triple, and one gap record.
#![tactic(auto)]

ghost use Rattle.std.specs.Prelude.{◌≡◌};
ghost use Rattle.job_file.specs.File.{pair_bytes};
ghost use Rattle.job_file.specs.Numbers.{signed_bits, settings_bytes_of, record_bytes_of};

use gap_records::Sequence;
use job_settings::Settings;
use power::Triple;

// The bits of a signed number of one byte.
fn byte_bits(z: i8) -> u8
    ensures { result ≡ signed_bits 128 z }
{
    z.cast_unsigned()
}

// The bytes of a signed number of two bytes, or of the nearest that they hold.
// DECISIONS: writing-nearest
fn pair_bits(z: i32) -> [u8; 2]
    ensures { result ≡ pair_bytes (signed_bits 32768 z) }
{
    (z.clamp(-32768, 32767) as i16).to_le_bytes()
}

// The twelve bytes of the settings, with their triple.
#[tactic(auto, unfolding(crate::specs::Numbers::settings_bytes_of))]
pub fn settings_bytes(s: Settings, t: Triple) -> [u8; 12]
    ensures { result ≡ settings_bytes_of s t }
{
    let maximum = byte_bits(s.maximum);
    let start = pair_bits(s.start);
    [
        s.pca, s.step, s.itp, s.rpp, s.links, t.betac, t.betad, t.channels, maximum, 0, start[0],
        start[1],
    ]
}

// The twelve bytes of a gap record.
#[tactic(auto, unfolding(crate::specs::Numbers::record_bytes_of))]
pub fn record_bytes(q: Sequence) -> [u8; 12]
    ensures { result ≡ record_bytes_of q }
{
    let tgprc = q.tgprc.to_le_bytes();
    let tgd = q.tgd.to_le_bytes();
    let start = q.start.to_le_bytes();
    [
        q.id,
        q.direction,
        q.tgsn,
        q.tgl1,
        q.tgl2,
        q.tgpl,
        tgprc[0],
        tgprc[1],
        tgd[0],
        tgd[1],
        start[0],
        start[1],
    ]
}
