// The slot rule: which ids put a slot into an uplink gap and which into a downlink gap, by every record of a part.
#![tactic(auto)]

ghost use Rattle.std.specs.Prelude.{◌≡◌, ◌+◌, ◌<◌};
ghost use Rattle.gap_slots.specs.Slots.{lies as lies_of, in_pattern, in_gap, uplink, downlink, opens_uplink};
ghost use Rattle.gap_slots.specs.Slots.{opens_downlink, slot_at, PlaceTold};
ghost use Rattle.gap_slots.specs.Asks.{id_bit, chosen_of, slot_by_record, joined_slots};

use gap_records::Sequence;

// The ids that put a slot into an uplink gap, and into a downlink gap, each set a sum of 2^(id − 1). It is a gap slot
// where the set is not empty.
#[derive(Clone, Copy)]
pub struct Slot {
    pub up: u8,
    pub down: u8,
}

// Whether a slot is an uplink gap slot.
#[tactic(auto, unfolding(crate::specs::Slots::opens_uplink))]
pub fn opens_uplink(slot: Slot) -> bool
    ensures { result ≡ opens_uplink slot }
{
    0 < slot.up
}

// Whether a slot is a downlink gap slot.
#[tactic(auto, unfolding(crate::specs::Slots::opens_downlink))]
pub fn opens_downlink(slot: Slot) -> bool
    ensures { result ≡ opens_downlink slot }
{
    0 < slot.down
}

// "Direction, 1 uplink, 2 downlink, 3 both": whether a sequence makes uplink gap slots.
#[tactic(auto, unfolding(crate::specs::Slots::uplink))]
pub fn uplink(q: Sequence) -> bool
    ensures { result ≡ uplink q }
{
    matches!(q.direction, 1 | 3)
}

// And whether it makes downlink gap slots.
#[tactic(auto, unfolding(crate::specs::Slots::downlink))]
pub fn downlink(q: Sequence) -> bool
    ensures { result ≡ downlink q }
{
    matches!(q.direction, 2 | 3)
}

// Whether a place of a pattern lies in a gap of this length from this
// place on. The sum of a byte, two bytes and a byte is 66,045 at most.
#[tactic(auto, unfolding(crate::specs::Slots::lies))]
fn lies(from: u32, length: u32, place: u32) -> bool
    requires { from + length < 66046 }
    ensures { result ≡ lies_of from length place }
{
    (from..from + length).contains(&place)
}

// Whether a place of a sequence's pattern lies in one of its gaps.
#[tactic(auto, unfolding(crate::specs::Slots::in_pattern))]
fn in_pattern(q: Sequence, place: u32) -> bool
    ensures { result ≡ in_pattern q.tgsn q.tgl1 q.tgl2 q.tgd place }
{
    let first = u32::from(q.tgsn);
    let second = first + u32::from(q.tgd);
    lies(first, u32::from(q.tgl1), place) || (0 < q.tgl2 && lies(second, u32::from(q.tgl2), place))
}

// Where a slot stands in the pattern of a sequence that is active. Gaps are
// asked for through this alone, slot by slot or a frame at a time.
// DECISIONS: records-start-any, gaps-any-bytes
#[tactic(auto, using(crate::proofs::Laws::Slots::place_told), unfolding(crate::specs::Slots::standing, crate::specs::Slots::active))]
pub fn place_at(q: Sequence, slot: u32) -> Option<u32>
    ensures { PlaceTold q slot result }
{
    let begin = 15 * u32::from(q.start);
    let size = 15 * u32::from(q.tgpl);
    if slot < begin || size == 0 {
        return None;
    }
    let r = slot - begin;
    if q.tgprc != 0 && u32::from(q.tgprc) <= r / size {
        return None;
    }
    Some(r % size)
}

// Whether a slot is in a gap of a sequence.
fn in_gap(q: Sequence, slot: u32) -> bool
    ensures { result ≡ in_gap q slot }
{
    place_at(q, slot).is_some_and(|at| in_pattern(q, at))
}

// What an id adds to a set, and nothing where it is no id.
// DECISIONS: gaps-any-bytes
#[tactic(auto, unfolding(crate::specs::Asks::id_bit))]
fn id_bit(id: u8) -> u8
    ensures { result ≡ id_bit id }
{
    match id {
        1..=constants::ID_MOST => 1 << (id - 1),
        _ => 0,
    }
}

// A number, where it is chosen.
fn chosen(made: bool, own: u8) -> u8
    ensures { result ≡ chosen_of made own }
{
    if made { own } else { 0 }
}

// What one sequence makes of a slot.
#[tactic(auto, unfolding(crate::specs::Asks::slot_by_record))]
fn slot_by_record(q: Sequence, slot: u32) -> Slot
    ensures { result ≡ slot_by_record q slot }
{
    let own = chosen(in_gap(q, slot), id_bit(q.id));
    Slot {
        up: chosen(uplink(q), own),
        down: chosen(downlink(q), own),
    }
}

// What two sequences make of a slot between them.
#[tactic(auto, unfolding(crate::specs::Asks::joined_slots))]
fn join(a: Slot, b: Slot) -> Slot
    ensures { result ≡ joined_slots a b }
{
    Slot {
        up: a.up | b.up,
        down: a.down | b.down,
    }
}

// What a slot is by every record of a part, in whatever order these stand.
pub fn slot_at(records: &[u8], slot: u32) -> Slot
    ensures { result ≡ slot_at records.now slot }
{
    let n = records.len() / constants::RECORD_BYTES;
    let mut found = Slot { up: 0, down: 0 };
    for k in 0..n {
        let one = slot_by_record(gap_records::record_at(records, k), slot);
        found = join(found, one);
    }
    found
}
