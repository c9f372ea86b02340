// The level table: the numbers that its rule gives as examples, both sides of its range, and all of it in two sums.
use std::io;

#[derive(Clone, Copy)]
struct Sums {
    plain: u64,
    placed: u64,
}

pub fn show(rt: &impl Print) -> io::Result<()> {
    for x in [0, 1, 2, 10, 1575, 1576] {
        println!(rt; "level {x} {}", levels::level(x))?;
    }
    for n in 2..=9 {
        println!(rt; "pilots {n} {}", levels::pilot_level(n))?;
    }
    let Sums { plain, placed } = summed();
    println!(rt; "levels summed {plain} {placed}")
}

// The sum of all levels, and the sum of that sum as it stood after each, which tells their places too.
fn summed() -> Sums {
    let mut plain = 0;
    let mut placed = 0;
    for x in 1..1576 {
        plain += u64::from(levels::level(x));
        placed += plain;
    }
    Sums { plain, placed }
}
