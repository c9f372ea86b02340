// Runs of gap slots, walked slot by slot: which slot is a gap slot, which resumes, and which recover.
#![tactic(auto)]

ghost use Rattle.std.specs.Prelude.{◌≡◌};
ghost use Rattle.gap_runs.specs.Runs.{no_run, run_sound, stepped, WalkTold};

use gap_slots::Slot;

// What is to be known of the slots so far: how long the run is that ends with the slot before, counted
// up to 7 and 0 where that slot is in no run, and how many recovery slots are still to come.
// DECISIONS: gaps-length-seven, gaps-run-two-senses
#[derive(Clone, Copy)]
pub struct Run {
    pub length: u8,
    pub left: u8,
}

// What a slot is: in a run, the one after it, one of the recovery slots, or none of these.
#[derive(Clone, Copy, PartialEq, Eq, Debug)]
pub enum Kind {
    Gap,
    Resume,
    Recovery,
    Plain,
}

// One slot's kind, and the run that the next one needs.
#[derive(Clone, Copy)]
pub struct Walked {
    pub run: Run,
    pub kind: Kind,
}

// Before slot 0 there is no run.
#[tactic(auto, unfolding(crate::specs::Runs::no_run))]
pub fn start() -> Run
    ensures { result ≡ no_run }
{
    Run { length: 0, left: 0 }
}

// Whether a state may hold the run.
#[tactic(auto, unfolding(crate::specs::Runs::run_sound))]
pub fn sound(run: Run) -> bool
    ensures { result ≡ run_sound run }
{
    (run.length <= 7) & (run.left <= 7)
}

// One slot on. A run merges both directions.
// DECISIONS: gaps-runs-merge
#[tactic(auto, using(crate::proofs::Laws::Runs::walk_told), unfolding(crate::specs::Runs::walked_of))]
pub fn walk(run: Run, slot: Slot) -> Walked
    ensures { WalkTold run slot result }
{
    let up = gap_slots::opens_uplink(slot);
    let down = gap_slots::opens_downlink(slot);
    step(run, up | down)
}

// One slot on, by whether it is a gap slot.
#[tactic(auto, unfolding(crate::specs::Runs::stepped))]
fn step(run: Run, gap: bool) -> Walked
    ensures { result ≡ stepped run gap }
{
    let (length, left, kind) = if gap {
        (run.length.min(6) + 1, 0, Kind::Gap)
    } else if 0 < run.length {
        (0, run.length, Kind::Resume)
    } else if 0 < run.left {
        (0, run.left - 1, Kind::Recovery)
    } else {
        (0, 0, Kind::Plain)
    };
    Walked {
        run: Run { length, left },
        kind,
    }
}
