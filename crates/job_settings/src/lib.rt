// The settings of a job: what all its rows share, with its ranges, and its triples of gain factors, each from the
// bytes of a file. Refusal 3.
#![tactic(auto)]

ghost use Rattle.std.specs.Prelude.{◌≡◌, ◌≤◌, length};
ghost use Rattle.constants.specs.Refusals.{refusal, wrong_settings};
ghost use Rattle.constants.specs.Sizes.{settings_bytes};
ghost use Rattle.job_settings.specs.Settings.{rule_fault, power_fault, settings_sound};
ghost use Rattle.job_settings.specs.Gains.{triple_at, gains_sound, gain_at};
ghost use Rattle.job_settings.specs.Body.{settings_in, settings_fault, SettingsTold};

use ground::Refusal;
use power::{Gain, Triple};

// What all rows of a job share, in the order of its bytes.
// Kept: numbers as they stand in the file; what rows make of each number is promised for all (settings-other-values).
#[derive(Clone, Copy)]
pub struct Settings {
    pub pca: u8,
    pub step: u8,
    pub itp: u8,
    pub rpp: u8,
    pub links: u8,
    pub maximum: i8,
    pub start: i32,
}

// The first of bytes 0 to 4 of the settings that breaks its rule.
#[tactic(auto, unfolding(crate::specs::Settings::rule_fault))]
fn rule_fault(s: Settings) -> Option<usize>
    ensures { result ≡ rule_fault s }
{
    if !(1..=2).contains(&s.pca) {
        return Some(0);
    }
    if !(1..=2).contains(&s.step) || (s.pca == 2 && s.step == 2) {
        return Some(1);
    }
    if 1 < s.itp {
        return Some(2);
    }
    if 1 < s.rpp {
        return Some(3);
    }
    if !(1..=6).contains(&s.links) {
        return Some(4);
    }
    None
}

// The first of the bytes of the powers that breaks its rule, from that of the maximum on. `blank` is the byte between
// them.
#[tactic(auto, unfolding(crate::specs::Settings::power_fault))]
fn power_fault(s: Settings, blank: u8) -> Option<u8>
    ensures { result ≡ power_fault s blank }
{
    if !(-50..=33).contains(&s.maximum) {
        return Some(0);
    }
    if 0 < blank {
        return Some(1);
    }
    if !(constants::POWER_LEAST..=constants::START_MOST).contains(&s.start) {
        return Some(2);
    }
    None
}

// Whether settings break no rule.
#[tactic(auto, unfolding(crate::specs::Settings::settings_sound))]
pub fn settings_sound(s: Settings) -> bool
    ensures { result ≡ settings_sound s }
{
    rule_fault(s).is_none() && power_fault(s, 0).is_none()
}

// Triple k of a part of triples, from 0, and a triple of zeros where the part has no triple k.
#[tactic(auto, unfolding(crate::specs::Gains::triple_at))]
pub fn triple_at(gains: &[u8], k: usize) -> Triple
    ensures { result ≡ triple_at gains.now k }
{
    if k < gains.len() / constants::TRIPLE_BYTES {
        let at = constants::TRIPLE_BYTES * k;
        return Triple {
            betac: gains[at],
            betad: gains[at + 1],
            channels: gains[at + 2],
        };
    }
    Triple {
        betac: 0,
        betad: 0,
        channels: 0,
    }
}

// Whether the triple of a part breaks no rule.
#[tactic(auto, unfolding(crate::specs::Gains::gains_sound))]
pub fn gains_sound(gains: &[u8]) -> bool
    ensures { result ≡ gains_sound gains.now }
{
    let t = triple_at(gains, 0);
    power::triple_fault(t).is_none()
}

// All that triple k of a part and the allowed maximum give.
pub fn gain_at(gains: &[u8], maximum: i8, k: usize) -> Gain
    ensures { result ≡ gain_at gains.now maximum k }
{
    let t = triple_at(gains, k);
    power::gain_of(t, maximum)
}

// The settings that twelve bytes are, whatever they are.
#[tactic(auto, unfolding(crate::specs::Body::settings_in))]
fn settings_in(body: &[u8]) -> Settings
    requires { settings_bytes ≤ length body.now }
    ensures { result ≡ settings_in body.now }
{
    Settings {
        pca: body[0],
        step: body[1],
        itp: body[2],
        rpp: body[3],
        links: body[4],
        maximum: i8::from_le_bytes([body[8]]),
        start: i32::from(i16::from_le_bytes([body[10], body[11]])),
    }
}

// The first of the twelve bytes that breaks its rule.
#[tactic(auto, unfolding(crate::specs::Body::settings_fault))]
fn settings_fault(s: Settings, t: Triple, blank: u8) -> Option<usize>
    ensures { result ≡ settings_fault s t blank }
{
    let triple = power::triple_fault(t).map(|byte| constants::GAINS_PLACE + byte as usize);
    let powers = power_fault(s, blank).map(|byte| constants::POWERS_PLACE + byte as usize);
    rule_fault(s).or(triple).or(powers)
}

// The refusal of settings of which a byte breaks its rule.
// Kept: its number is this crate's own, as that of contents is; one function of the number would be the literal again.
fn wrong(place: usize) -> Refusal
    ensures { result ≡ refusal wrong_settings place }
{
    Refusal {
        number: constants::WRONG_SETTINGS,
        place,
    }
}

// The settings of a body, or the first byte that breaks its rule. A byte that is not there breaks it.
#[tactic(auto, using(crate::proofs::Laws::Body::settings_told), unfolding(crate::specs::Body::settings_read))]
pub fn read(body: &[u8]) -> Result<Settings, Refusal>
    ensures { SettingsTold body.now result }
{
    if body.len() < constants::SETTINGS_BYTES {
        return Err(wrong(body.len()));
    }
    let s = settings_in(body);
    let t = triple_at(&body[constants::GAINS_PLACE..constants::POWERS_PLACE], 0);
    match settings_fault(s, t, body[9]) {
        Some(place) => Err(wrong(place)),
        None => Ok(s),
    }
}
