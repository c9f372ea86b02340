// Gap records as they stand in the job, byte for byte: one record's
// numbers and its faults, and whether a part of records is taken.
#![tactic(auto)]

ghost use Rattle.std.specs.Prelude.{◌≡◌, ◌+◌, ◌*◌, ◌≤◌, length};
ghost use Rattle.ground.specs.Bytes.{pair_at};
ghost use Rattle.constants.specs.Sizes.{record_bytes};
ghost use Rattle.gap_records.specs.Records.{sequence_at, record_at, sequences_from, number_fault, wrong_tgd, gap_fault};
ghost use Rattle.gap_records.specs.Records.{record_fault, has_id, CheckTold};

use ground::Refusal;

// One gap record's numbers.
// Kept: its direction is a byte, for `gap_slots.specs.Slots.uplink` and `downlink` hold for any (gaps-any-bytes).
#[derive(Clone, Copy, Default)]
pub struct Sequence {
    pub id: u8,
    pub direction: u8,
    pub tgsn: u8,
    pub tgl1: u8,
    pub tgl2: u8,
    pub tgpl: u8,
    pub tgprc: u16,
    pub tgd: u16,
    pub start: u16,
}

// The number whose two bytes start here.
fn pair_at(records: &[u8], at: usize) -> u16
    requires { at + 2 ≤ length records.now }
    ensures { result ≡ pair_at records.now at }
{
    ground::pair(records[at], records[at + 1])
}

// The record that starts at a byte.
#[tactic(auto, unfolding(crate::specs::Records::sequence_at))]
fn sequence_at(records: &[u8], at: usize) -> Sequence
    requires { at + record_bytes ≤ length records.now }
    ensures { result ≡ sequence_at records.now at }
{
    Sequence {
        id: records[at],
        direction: records[at + 1],
        tgsn: records[at + 2],
        tgl1: records[at + 3],
        tgl2: records[at + 4],
        tgpl: records[at + 5],
        tgprc: pair_at(records, at + 6),
        tgd: pair_at(records, at + 8),
        start: pair_at(records, at + 10),
    }
}

// Record k of a part, from 0, and a record of zeros where the part has no record k.
#[tactic(auto, unfolding(crate::specs::Records::record_at))]
pub fn record_at(records: &[u8], k: usize) -> Sequence
    ensures { result ≡ record_at records.now k }
{
    if k < records.len() / constants::RECORD_BYTES {
        sequence_at(records, constants::RECORD_BYTES * k)
    } else {
        Sequence::default()
    }
}

// The byte of a record whose number breaks its rule first, of its bytes 0 to 7.
#[tactic(auto, unfolding(crate::specs::Records::number_fault))]
fn number_fault(q: Sequence) -> Option<u8>
    ensures { result ≡ number_fault q.id q.direction q.tgsn q.tgl1 q.tgl2 q.tgpl q.tgprc }
{
    if !(1..=constants::ID_MOST).contains(&q.id) {
        return Some(0);
    }
    if !(1..=3).contains(&q.direction) {
        return Some(1);
    }
    if 14 < q.tgsn {
        return Some(2);
    }
    if !(1..=14).contains(&q.tgl1) {
        return Some(3);
    }
    if 14 < q.tgl2 {
        return Some(4);
    }
    if !(1..=144).contains(&q.tgpl) {
        return Some(5);
    }
    if 511 < q.tgprc {
        return Some(6);
    }
    None
}

// Whether TGD breaks its rule.
#[tactic(auto, unfolding(crate::specs::Records::wrong_tgd))]
fn wrong_tgd(q: Sequence) -> bool
    ensures { result ≡ wrong_tgd q.tgl2 q.tgd }
{
    match q.tgl2 {
        0 => q.tgd != 0,
        _ => !(15..=269).contains(&q.tgd),
    }
}

// The byte of TGD, then that of a gap that does not fit.
#[tactic(auto, unfolding(crate::specs::Records::gap_fault))]
fn gap_fault(q: Sequence) -> Option<u8>
    ensures { result ≡ gap_fault q.tgsn q.tgl1 q.tgl2 q.tgpl q.tgd }
{
    let room = 15 * u32::from(q.tgpl);
    let begin = u32::from(q.tgsn);
    if wrong_tgd(q) {
        return Some(8);
    }
    if room < begin + u32::from(q.tgl1) {
        return Some(5);
    }
    if 0 < q.tgl2 && room < begin + u32::from(q.tgd) + u32::from(q.tgl2) {
        return Some(5);
    }
    None
}

// The byte of a record at which it breaks its first rule.
#[tactic(auto, unfolding(crate::specs::Records::record_fault))]
fn record_fault(q: Sequence) -> Option<u8>
    ensures { result ≡ record_fault q }
{
    number_fault(q).or_else(|| gap_fault(q))
}

// Whether one of the first k records has this id.
fn has_id(records: &[u8], id: u8, k: usize) -> bool
    requires { record_bytes * k ≤ length records.now }
    ensures { result ≡ has_id id (sequences_from records.now k 0) }
{
    for j in 0..k {
        if records[constants::RECORD_BYTES * j] == id {
            return true;
        }
    }
    false
}

// Every record of a part in turn: how many there are, or the first
// refusal. Bytes that are left over at the end belong to no record.
pub fn check(records: &[u8]) -> Result<usize, Refusal>
    ensures { CheckTold records.now result }
{
    let n = records.len() / constants::RECORD_BYTES;
    if constants::RECORDS_MOST < n {
        return Err(Refusal {
            number: constants::TOO_MANY_RECORDS,
            place: n,
        });
    }
    for k in 0..n {
        let at = constants::RECORD_BYTES * k;
        let q = sequence_at(records, at);
        if let Some(byte) = record_fault(q) {
            return Err(Refusal {
                number: constants::WRONG_RECORD,
                place: at + usize::from(byte),
            });
        }
        if has_id(records, q.id, k) {
            return Err(Refusal {
                number: constants::REPEATED_ID,
                place: k,
            });
        }
    }
    Ok(n)
}
