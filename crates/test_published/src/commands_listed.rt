// Commands, steps, pilots and gain: the cases that the page names, and what comes where an input is outside its range.
use crate::shown;
use command_algorithms::Five;
use power::Triple;
use std::io;

pub fn show(rt: &impl Print) -> io::Result<()> {
    votes(rt)?;
    steps(rt)?;
    pilots(rt)?;
    gains(rt)
}

fn votes(rt: &impl Print) -> io::Result<()> {
    vote(rt, "temporaries 1, 1, 0", five(7, 3, 3))?;
    vote(rt, "temporaries 1, 0", five(3, 1, 2))?;
    vote(rt, "temporaries 1, 1, -1", five(3, 3, 3))?;
    vote(rt, "temporaries of no link set", five(0, 0, 0))?;
    vote(rt, "temporaries of nine", five(255, 255, 9))?;
    vote(rt, "all ones", command_algorithms::algorithm1(7, 3))?;
    vote(rt, "one zero", command_algorithms::algorithm1(5, 3))?;
    vote(
        rt,
        "ones of no link set",
        command_algorithms::algorithm1(0, 0),
    )?;
    vote(rt, "ones of nine", command_algorithms::algorithm1(255, 9))
}

fn vote(rt: &impl Print, name: &str, command: i8) -> io::Result<()> {
    println!(rt; "{name}: {}", shown::sign(command))
}

// Four slots have the first byte, and the fourth of five has the second.
fn five(most: u32, other: u32, sets: u8) -> i8 {
    let five = Five {
        a: most,
        b: most,
        c: most,
        d: other,
        e: most,
    };
    command_algorithms::algorithm2(five, sets)
}

fn steps(rt: &impl Print) -> io::Result<()> {
    for step in 0..4 {
        println!(rt; "step of {step} dB: {}", power::step_units(step))?;
    }
    for (pca, step) in [(1, 64), (1, 128), (2, 64)] {
        println!(rt;
            "recovery step of {step}, PCA {pca}: {}",
            power::recovery_step(pca, step)
        )?;
    }
    Ok(())
}

fn pilots(rt: &impl Print) -> io::Result<()> {
    for (before, now) in [(8, 4), (4, 8), (3, 8), (0, 8)] {
        println!(rt;
            "pilots {before} then {now}: {}",
            power::pilot_change(before, now)
        )?;
    }
    for (before, now, command, step) in [(8, 4, -1, 128), (4, 8, 1, 192)] {
        let change = power::step_change(command, step, before, now);
        println!(rt; "pilots {before} then {now}, command {command}, step {step}: {change}")?;
    }
    Ok(())
}

fn gains(rt: &impl Print) -> io::Result<()> {
    for (betac, betad, channels, maximum) in [
        (15, 15, 1, 24),
        (8, 15, 1, 24),
        (15, 0, 6, -50),
        (1, 15, 6, 33),
        (15, 1, 1, 33),
        (0, 0, 0, 127),
        (255, 255, 255, -128),
    ] {
        print!(rt; "gain {betac} {betad} {channels} at {maximum} dBm:")?;
        let triple = Triple {
            betac,
            betad,
            channels,
        };
        gain(rt, triple, maximum)?;
    }
    Ok(())
}

// The bracket, the ceiling, and data power above control power.
fn gain(rt: &impl Print, triple: Triple, maximum: i8) -> io::Result<()> {
    let gain = power::gain_of(triple, maximum);
    print!(rt; " {} {}", gain.bracket, gain.ceiling)?;
    if gain.carries_data {
        println!(rt; " {}", gain.offset)
    } else {
        println!(rt; " -")
    }
}
