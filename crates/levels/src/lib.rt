// The level table of the reference: 640 times the decimal logarithm of a number, to the nearest whole number.
#![tactic(auto)]

mod table;

ghost use Rattle.std.specs.Prelude.{◌≡◌};
ghost use Rattle.levels.specs.Level.{level as level_of};

// L(x) for x from 1 to 1,575, and 0 for any other number.
pub fn level(x: u32) -> u16
    ensures { result ≡ level_of x }
{
    match x {
        1..=1575 => table::LEVELS[x as usize - 1],
        _ => 0,
    }
}

// L of a slot's pilot bits. Those that a sent slot can have, 3 to 8, are written out: a use of the table copies it.
pub fn pilot_level(pilots: u8) -> u16
    ensures { result ≡ level_of pilots }
{
    match pilots {
        3 => 305,
        4 => 385,
        5 => 447,
        6 => 498,
        7 => 541,
        8 => 578,
        _ => level(u32::from(pilots)),
    }
}
