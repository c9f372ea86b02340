// What every layer cites: choices, integers, lists and tables, all of them definitions and laws, and nothing about
// radio. Beside them the one type that layers share, the size of a signed number, which text is made of, whether a
// number lies in a range, and a number of two bytes.
#![tactic(auto)]

ghost use Rattle.std.specs.Prelude.{◌≡◌, Some, nat_abs};
ghost use Rattle.ground.specs.Bytes.{pair_of};
ghost use Rattle.ground.specs.Integers.{within};
ghost use Rattle.ground.specs.Refused.{refusal_text};

use std::fmt;

// A refusal: its number, and its place.
#[derive(Clone, Copy, Debug, PartialEq, Eq)]
pub struct Refusal {
    pub number: u8,
    pub place: usize,
}

impl fmt::Display for Refusal {
    ghost output = { λ r. Some (refusal_text r) };

    fn fmt<W: fmt::Write>(&self, f: &mut fmt::Formatter<W>) -> fmt::Result {
        write!(f, "refused {} at {}", self.number, self.place)
    }
}

// A number without its sign.
pub fn magnitude(n: i32) -> u32
    ensures { result ≡ nat_abs n }
{
    n.unsigned_abs()
}

// Whether a number lies in a range.
pub fn between(x: i32, least: i32, most: i32) -> bool
    ensures { result ≡ within least most x }
{
    (least..=most).contains(&x)
}

// A little-endian number of two bytes.
pub fn pair(low: u8, high: u8) -> u16
    ensures { result ≡ pair_of low high }
{
    u16::from_le_bytes([low, high])
}
