// The slot rule read ahead: every record is asked once which of a frame's 15 slots are in a gap of it, and its id is put
// down there. What is put down is asked for at gap slots alone.
#![tactic(auto)]

ghost use Rattle.std.specs.Prelude.{◌≡◌, ◌+◌, ◌-◌, ◌*◌, ◌^◌, ◌≤◌, ◌<◌, min};
ghost use Rattle.gap_frames.specs.Windows.{ids_at, window_at, lowest_of, taken_of};
ghost use Rattle.gap_frames.specs.Asks.{span_bits, pattern_bits, gap_bits, mask_of, lanes_with, with_gaps};

use gap_records::Sequence;
use gap_slots::Slot;

// Ids of a frame's slots: a bit for each of three ids and each slot, the first slot in the lowest three bits. Ids 1 to 3
// are in the low lane, 4 to 6 in the high one.
#[derive(Clone, Copy)]
pub struct Lanes {
    pub low: u64,
    pub high: u64,
}

// The slots of the rest of a frame that are in a gap of some record, three bits each, the next slot in the lowest: so
// many are left. Beside them, for each direction, the ids of the whole frame, which are asked for at these slots alone.
#[derive(Clone, Copy)]
pub struct Window {
    pub left: u32,
    pub gaps: u64,
    pub up: Lanes,
    pub down: Lanes,
}

// What a slot is, and the window from the next slot on.
#[derive(Clone, Copy)]
pub struct Taken {
    pub slot: Slot,
    pub rest: Window,
}

// What a window tells, of a whole frame.
#[derive(Clone, Copy)]
struct Frame {
    pub gaps: u64,
    pub up: Lanes,
    pub down: Lanes,
}

// Where a place of a pattern stands in the frame from this place on: at
// its first slot at the earliest, and past its last at the latest.
fn edge(place: u32, from: u32) -> u32
    ensures { result ≡ min 15 (place - from) }
{
    place.saturating_sub(from).min(15)
}

// The lowest bit of a slot of a frame, or of the first after it.
fn power(n: u32) -> u64
    requires { n ≤ 15 }
    ensures { result ≡ 2 ^ (3 * n) }
{
    1u64 << (3 * n)
}

// The slots of a gap in the frame from a place of the pattern on.
fn span(begin: u32, length: u32, from: u32) -> u64
    requires { begin + length < 66046 }
    ensures { result ≡ span_bits begin length from }
{
    let end = edge(begin + length, from);
    power(end) - power(edge(begin, from))
}

// The slots of both gaps of a pattern in the frame from a place of it on.
#[tactic(auto, unfolding(crate::specs::Asks::pattern_bits))]
fn pattern(q: Sequence, from: u32) -> u64
    ensures { result ≡ pattern_bits q.tgsn q.tgl1 q.tgl2 q.tgd from }
{
    let first = u32::from(q.tgsn);
    let second = first + u32::from(q.tgd);
    span(first, u32::from(q.tgl1), from) | span(second, u32::from(q.tgl2), from)
}

// The slots of the frame from its first on that are in a gap of a sequence.
// Patterns are whole frames, so that where the first stands tells of all.
#[tactic(auto, unfolding(crate::specs::Asks::gap_bits))]
fn gaps_in(q: Sequence, first: u32) -> u64
    ensures { result ≡ gap_bits q first }
{
    match gap_slots::place_at(q, first) {
        Some(from) => pattern(q, from),
        None => 0,
    }
}

// The bit of the first, second or third id of a lane, in each slot of a frame: the sum of the first fifteen powers of 8,
// twice and four times that.
const FIRST: u64 = 5026338869833;

const SECOND: u64 = 2 * FIRST;

const THIRD: u64 = 4 * FIRST;

// The bits of an id, one in each slot of a frame; none where it is no id.
// DECISIONS: gaps-any-bytes
fn mask(id: u8) -> Lanes
    ensures { result ≡ mask_of id }
{
    let (low, high) = match id {
        1 => (FIRST, 0),
        2 => (SECOND, 0),
        3 => (THIRD, 0),
        4 => (0, FIRST),
        5 => (0, SECOND),
        6 => (0, THIRD),
        _ => (0, 0),
    };
    Lanes { low, high }
}

// Lanes with the bits of an id, where a direction is the sequence's, in the slots of its gaps.
#[tactic(auto, unfolding(crate::specs::Asks::lanes_with))]
fn lanes_with(l: Lanes, of: bool, own: Lanes, gaps: u64) -> Lanes
    ensures { result ≡ lanes_with l of own gaps }
{
    if of {
        return Lanes {
            low: l.low | (own.low & gaps),
            high: l.high | (own.high & gaps),
        };
    }
    l
}

// A frame with the gaps of one sequence more. In most frames there is none, and nothing is to be put down.
#[tactic(auto, unfolding(crate::specs::Asks::with_gaps))]
fn with_gaps(f: Frame, q: Sequence, first: u32) -> Frame
    ensures { result ≡ with_gaps f q first }
{
    let gaps = gaps_in(q, first);
    if gaps == 0 {
        return f;
    }
    let own = mask(q.id);
    Frame {
        gaps: f.gaps | gaps,
        up: lanes_with(f.up, gap_slots::uplink(q), own, gaps),
        down: lanes_with(f.down, gap_slots::downlink(q), own, gaps),
    }
}

// The window at a slot, by every record of a part.
fn window_at(records: &[u8], slot: u32) -> Window
    ensures { result ≡ window_at records.now slot }
{
    let first = 15 * (slot / 15);
    let place = slot % 15;
    let n = records.len() / constants::RECORD_BYTES;
    let mut f = Frame {
        gaps: 0,
        up: Lanes { low: 0, high: 0 },
        down: Lanes { low: 0, high: 0 },
    };
    for k in 0..n {
        f = with_gaps(f, gap_records::record_at(records, k), first);
    }
    Window {
        left: 15 - place,
        gaps: f.gaps >> (3 * place),
        up: f.up,
        down: f.down,
    }
}

// The set of ids at a place of a frame.
#[tactic(auto, unfolding(crate::specs::Windows::ids_at))]
fn ids_at(l: Lanes, place: u32) -> u8
    requires { place ≤ 15 }
    ensures { result ≡ ids_at l place }
{
    let low = (l.low >> (3 * place)) % 8;
    let high = (l.high >> (3 * place)) % 8;
    (low + 8 * high) as u8
}

// A window's next slot. Its ids are asked for where it is in a gap.
#[tactic(auto, unfolding(crate::specs::Windows::lowest_of))]
fn slot_asked(w: Window) -> Slot
    ensures { result ≡ (lowest_of w).slot }
{
    if w.gaps % 2 == 0 {
        return Slot { up: 0, down: 0 };
    }
    let place = 15u32.saturating_sub(w.left);
    Slot {
        up: ids_at(w.up, place),
        down: ids_at(w.down, place),
    }
}

// The next slot of a window that has one, and the rest.
#[tactic(auto, unfolding(crate::specs::Windows::lowest_of))]
fn lowest(w: Window) -> Taken
    requires { 1 ≤ w.left }
    ensures { result ≡ lowest_of w }
{
    Taken {
        slot: slot_asked(w),
        rest: Window {
            left: w.left - 1,
            gaps: w.gaps / 8,
            ..w
        },
    }
}

// What a slot is, by a window from this slot on or, where none is left
// of it, by the records; and the window from the next slot on.
#[tactic(auto, using(crate::proofs::Laws::Windows::some_left), unfolding(crate::specs::Windows::taken_of))]
pub fn take(records: &[u8], w: Window, slot: u32) -> Taken
    ensures { result ≡ taken_of records.now w slot }
{
    if w.left == 0 {
        return lowest(window_at(records, slot));
    }
    lowest(w)
}
