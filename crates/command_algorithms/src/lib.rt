// Algorithms 1 and 2 over the link sets, and the five-slot set: the bytes
// that algorithm 2 looks at, and whether a slot has spoilt them.
#![tactic(auto)]

ghost use Rattle.std.specs.Prelude.{◌≡◌};
ghost use Rattle.command_algorithms.specs.Algorithms.{algorithm1 as algorithm1_of, algorithm2 as algorithm2_of};
ghost use Rattle.command_algorithms.specs.Algorithms.{lowest, halved};
ghost use Rattle.command_algorithms.specs.Sets.{fifth as fifth_of, fresh_of, set_after, within_links, set_sound};

// The command bytes of five slots, the oldest first: a bit for each link set, 1 for command
// "1". Each byte has a number of 32 bits to itself: four bytes side by side, which move up
// by one at every slot, would be kept as one vector and taken apart again.
// Kept: a field for each slot: an array would be that vector, and `set_sound` names the fields.
#[derive(Clone, Copy)]
pub struct Five {
    pub a: u32,
    pub b: u32,
    pub c: u32,
    pub d: u32,
    pub e: u32,
}

// The bytes of the four slots before, the oldest first, and whether
// this five-slot set has had a slot that takes its command away.
// Kept: fields, as in `Five`; `exports_state::unpack` takes each by its place in the numbers that C lends.
#[derive(Clone, Copy)]
pub struct Set {
    pub a: u32,
    pub b: u32,
    pub c: u32,
    pub d: u32,
    pub spoilt: bool,
}

// Algorithm 1: +1 if all decisions of a slot are 1, else -1.
pub fn algorithm1(commands: u8, links: u8) -> i8
    ensures { result ≡ algorithm1_of commands links }
{
    if 8 < links {
        return -1;
    }
    let all = 1u32 << links;
    if (commands as u32) % all + 1 == all {
        return 1;
    }
    -1
}

// How many of five slots decide 1 in the lowest bit.
fn ones(f: Five) -> u32
    ensures { result ≡ lowest f }
{
    f.a % 2 + f.b % 2 + f.c % 2 + f.d % 2 + f.e % 2
}

// The next link set's bits, at the lowest place.
fn half(f: Five) -> Five
    ensures { result ≡ halved f }
{
    Five {
        a: f.a / 2,
        b: f.b / 2,
        c: f.c / 2,
        d: f.d / 2,
        e: f.e / 2,
    }
}

// Algorithm 2 over the five slots of a set that nothing has spoilt.
pub fn algorithm2(five: Five, links: u8) -> i8
    ensures { result ≡ algorithm2_of five links }
{
    let mut rest = five;
    let mut ups = 0;
    for _link in 0..links {
        let o = ones(rest);
        if o < 1 {
            return -1;
        }
        ups += o / 5;
        rest = half(rest);
    }
    if u32::from(links) < 2 * ups {
        return 1;
    }
    0
}

// The set before slot 0.
#[tactic(auto, unfolding(crate::specs::Sets::fresh_of))]
pub fn fresh() -> Set
    ensures { result ≡ fresh_of }
{
    Set {
        a: 0,
        b: 0,
        c: 0,
        d: 0,
        spoilt: false,
    }
}

// Whether a slot is the fifth of its set. A frame has three whole sets, so that five alone tells.
// DECISIONS: command-set-of-slot
pub fn fifth(row: u32) -> bool
    ensures { result ≡ fifth_of row }
{
    row % 5 == 4
}

// The set one slot on. A downlink gap slot spoils it, and so does a slot that goes by the recovery rule.
#[tactic(auto, unfolding(crate::specs::Sets::set_after))]
pub fn set_after(set: Set, row: u32, down: bool, recovery: bool, commands: u8) -> Set
    ensures { result ≡ set_after set row down recovery commands }
{
    let last = fifth(row);
    let spoils = down | recovery;
    Set {
        a: set.b,
        b: set.c,
        c: set.d,
        d: commands as u32,
        spoilt: !last & (set.spoilt | spoils),
    }
}

// Whether a row's byte, or one that a set keeps, has no bit beyond its link sets.
pub fn within_links(commands: u32, links: u8) -> bool
    ensures { result ≡ within_links commands links }
{
    if 31 < links {
        return true;
    }
    commands >> links < 1
}

// Whether each byte of a set is one that a row may have.
#[tactic(auto, unfolding(crate::specs::Sets::set_sound))]
pub fn sound(set: Set, links: u8) -> bool
    ensures { result ≡ set_sound links set }
{
    let first = within_links(set.a, links);
    let second = within_links(set.b, links);
    let third = within_links(set.c, links);
    let fourth = within_links(set.d, links);
    first & second & (third & fourth)
}
