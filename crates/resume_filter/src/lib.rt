// The resume filter: a level that decays by a sixteenth at each update
// and takes a bracket off, kept with the count of its updates.
#![tactic(auto)]

ghost use Rattle.std.specs.Prelude.{◌≡◌, pos, ◌*ℤ◌, ◌<ℤ◌};
ghost use Rattle.resume_filter.specs.Scaled.{scaled, Bounded, LevelTested};
ghost use Rattle.resume_filter.specs.Resuming.{away as away_of, nearest_of, ResumeTold, whole_units_of};
ghost use Rattle.resume_filter.specs.Update.{share_of, update_bracket, empty_of};
ghost use Rattle.resume_filter.specs.Update.{updated_of, FilterTested};

// A level, in units, and the count of its updates. It is passed and returned by value.
#[derive(Clone, Copy)]
pub struct Filter {
    pub level: f64,
    pub count: u32,
}

// The filter before its first update.
#[tactic(auto, unfolding(crate::specs::Update::empty_of))]
pub fn empty() -> Filter
    ensures { result ≡ empty_of }
{
    Filter {
        level: 0.0,
        count: 0,
    }
}

// What an update takes off: the command times 31/32 of the step, and
// nothing if the row before and the row now are both limited.
#[tactic(auto, unfolding(crate::specs::Update::update_bracket))]
pub fn bracket(command: i8, step: u8, before: bool, now: bool) -> i32
    ensures { result ≡ update_bracket command step before now }
{
    if before & now {
        return 0;
    }
    i32::from(command) * i32::from(share(step))
}

// 31/32 of a step, without a fraction: 62 of 64 and 124 of 128.
#[tactic(auto, unfolding(crate::specs::Update::share_of))]
fn share(step: u8) -> u8
    ensures { result ≡ share_of step }
{
    ((step as u32) * 31 / 32) as u8
}

// The filter after one more update. The count stays where it is once it is at the top of its type.
#[tactic(auto, unfolding(crate::specs::Update::updated_of, crate::specs::Update::next))]
pub fn update(f: Filter, bracket: i32) -> Filter
    ensures { result ≡ updated_of f bracket }
{
    Filter {
        level: 0.9375 * f.level - (bracket as f64),
        count: f.count.saturating_add(1),
    }
}

// Whether a number lies in the range of a level, -1,984 to 1,984: no NaN and no infinity does.
pub fn in_range(level: f64) -> bool
    ensures { LevelTested level result }
{
    (-1984.0..=1984.0).contains(&level)
}

// Whether a state may hold the filter after so many rows: no more updates than rows, and a level in its range.
#[tactic(auto, unfolding(crate::specs::Update::filter_sound))]
pub fn sound(f: Filter, rows: u32) -> bool
    ensures { FilterTested f rows result }
{
    f.count <= rows && in_range(f.level)
}

// The resume change: a whole command step under ITP 0, the filter's level under ITP 1.
// Kept: two kinds of change, of which neither is an error or nothing, so no Result or Option.
#[derive(Clone, Copy)]
pub enum Resume {
    Whole(i32),
    Level(f64),
}

// A command times a step: 1 gives the step, -1 the step negated, and any other number is multiplied.
// Kept: the case of -1 is the negated step that docs/ARCHITECTURE.md (multiplied-steps) names; no product says it.
fn signed_step(command: i8, step: u8) -> i32
    ensures { result ≡ command *ℤ pos step }
{
    let units = i32::from(step);
    if command == 1 {
        return units;
    }
    if command == -1 {
        return -units;
    }
    i32::from(command) * units
}

// The resume change by ITP. The command is that of the run's first uplink gap slot, and 0 where there is none.
// Kept: ITP is a number, and `ResumeTold` says of each (settings-other-values) what it does.
#[tactic(auto, using(crate::proofs::Laws::Resuming::resume_told), unfolding(crate::specs::Resuming::resume_of))]
pub fn resume_change(itp: u8, step: u8, command: i8, f: Filter) -> Resume
    ensures { ResumeTold itp step command f result }
{
    if itp < 1 {
        return Resume::Whole(signed_step(command, step));
    }
    Resume::Level(f.level)
}

// A resume change in whole units: a level goes to the nearest, a half away from zero.
#[tactic(auto, unfolding(crate::specs::Resuming::whole_units_of))]
pub fn whole_units(change: Resume) -> i32
    ensures { result ≡ whole_units_of change }
{
    match change {
        Resume::Whole(units) => units,
        Resume::Level(level) => nearest(level),
    }
}

// A level in whole units. A number outside the range, a NaN and an infinity are no level, and give 0.
// DECISIONS: change-level-outside
#[tactic(auto, using(crate::proofs::Laws::Scaled::range_in), unfolding(crate::specs::Resuming::nearest_of))]
fn nearest(level: f64) -> i32
    ensures { result ≡ nearest_of level }
{
    if in_range(level) {
        return away(level);
    }
    0
}

fn away(x: f64) -> i32
    requires { Bounded x }
    ensures { result ≡ away_of (scaled x) }
{
    if x > 0.0 {
        return half_up(x);
    }
    if x < 0.0 {
        return -half_up(-x);
    }
    0
}

// The whole number nearest to an x above 0, a half up: x is compared
// with the middle of its whole part and the next, which is exact.
// Kept: change-nearest-by-comparing decides that a level is compared with the middle; std's `round` is no comparison.
// DECISIONS: change-nearest-by-comparing
fn half_up(x: f64) -> i32
    requires { (pos 0 <ℤ scaled x) × Bounded x }
    ensures { result ≡ away_of (scaled x) }
{
    let n = std::num::truncating_f64_to_u64(x);
    let middle = (n as f64) + 0.5;
    if x < middle { n as i32 } else { (n + 1) as i32 }
}
