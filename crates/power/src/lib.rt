// What a power moves by: the steps and the pilots, and what a triple of gain factors makes of it.
#![tactic(auto)]

ghost use Rattle.std.specs.Prelude.{◌≡◌, ◌≤◌, pos, nat_abs, ◌-ℤ◌, ◌*ℤ◌};
ghost use Rattle.power.specs.Steps.{step_units, recovery_step_of, pilot_change_of, step_change_of};
ghost use Rattle.power.specs.Gain.{control_square, data_square, gain_bracket, data_offset, gain_of};
ghost use Rattle.power.specs.Triples.{triple_fault};

use levels::{level, pilot_level};

// Gain factors: βc of control power, βd of data power, and the DPDCH count n.
#[derive(Clone, Copy)]
pub struct Triple {
    pub betac: u8,
    pub betad: u8,
    pub channels: u8,
}

// What a triple makes of a power: total and data power above control power, the ceiling of control power, all in
// units, and whether data are carried.
// Kept: a flag beside `offset`: `power.specs.Gain.GainIn` and row_rules' `data_power` speak of the offset of any gain.
#[derive(Clone, Copy)]
pub struct Gain {
    pub bracket: i32,
    pub ceiling: i32,
    pub carries_data: bool,
    pub offset: i32,
}

// The step in units, of the settings' 1 or 2 dB.
#[tactic(auto, unfolding(crate::specs::Steps::step_units))]
pub fn step_units(step: u8) -> u8
    ensures { result ≡ step_units step }
{
    if step == 2 { 128 } else { 64 }
}

// The step of a slot that goes by the recovery rule, from the step in units.
#[tactic(auto, unfolding(crate::specs::Steps::recovery_step_of))]
pub fn recovery_step(pca: u8, step: u8) -> u8
    ensures { result ≡ recovery_step_of pca step }
{
    if pca == 2 {
        return 64;
    }
    step.saturating_mul(2).min(192)
}

// The difference of two levels.
fn difference(a: u16, b: u16) -> i32
    ensures { result ≡ pos a -ℤ pos b }
{
    i32::from(a) - i32::from(b)
}

// What control power rises by where the pilot bits go from one number to another.
#[tactic(auto, unfolding(crate::specs::Steps::pilot_change_of))]
pub fn pilot_change(before: u8, now: u8) -> i32
    ensures { result ≡ pilot_change_of before now }
{
    difference(pilot_level(before), pilot_level(now))
}

// A command times a step, and the pilot change. It multiplies, without a branch: nearly every row passes here, and its
// command is not to be foreseen.
pub fn step_change(command: i8, step: u8, before: u8, now: u8) -> i32
    ensures { result ≡ step_change_of command step before now }
{
    i32::from(command) * i32::from(step) + pilot_change(before, now)
}

// The byte of a triple that breaks its rule first, from 0.
#[tactic(auto, unfolding(crate::specs::Triples::triple_fault))]
pub fn triple_fault(t: Triple) -> Option<u8>
    ensures { result ≡ triple_fault t }
{
    if !(1..=15).contains(&t.betac) {
        return Some(0);
    }
    if 15 < t.betad || (t.betac != 15 && t.betad != 15) {
        return Some(1);
    }
    if !(1..=6).contains(&t.channels) {
        return Some(2);
    }
    None
}

// The squares that power goes by, of control and of data.
impl Triple {
    // βc².
    fn control_square(self) -> u32
        ensures value { result ≡ control_square self }
        ensures bound { result ≤ 65025 }
    {
        u32::from(self.betac) * u32::from(self.betac)
    }

    // n·βd².
    fn data_square(self) -> u32
        ensures value { result ≡ data_square self }
        ensures bound { result ≤ 16581375 }
    {
        u32::from(self.channels) * (u32::from(self.betad) * u32::from(self.betad))
    }
}

// Total power above control power.
#[tactic(auto, unfolding(crate::specs::Gain::gain_bracket))]
fn bracket(t: Triple) -> i32
    ensures { result ≡ gain_bracket t }
{
    let own = t.control_square();
    difference(level(own + t.data_square()), level(own))
}

// Data power above control power, 0 where no data are carried.
#[tactic(auto, unfolding(crate::specs::Gain::data_offset))]
fn offset(t: Triple) -> i32
    ensures { result ≡ data_offset t }
{
    if t.betad == 0 {
        return 0;
    }
    difference(level(t.data_square()), level(t.control_square()))
}

// The most that control power may be, so that total power is at most the allowed maximum in dBm.
fn ceiling(maximum: i8, above: i32) -> i32
    requires { nat_abs above ≤ 2046 }
    ensures { result ≡ pos 64 *ℤ maximum -ℤ above }
{
    64 * i32::from(maximum) - above
}

// All that a triple and the allowed maximum give.
#[tactic(auto, using(crate::proofs::Laws::Gain::bracket_any))]
pub fn gain_of(t: Triple, maximum: i8) -> Gain
    ensures { result ≡ gain_of t maximum }
{
    let bracket = bracket(t);
    Gain {
        bracket,
        ceiling: ceiling(maximum, bracket),
        carries_data: 0 < t.betad,
        offset: offset(t),
    }
}
