// The page's own case, the brackets, and both sides of each edge of the range, the rounding and the count.
use crate::shown::{Level, Shown};
use resume_filter::{Filter, Resume};
use std::io;

pub fn show(rt: &impl Print) -> io::Result<()> {
    starred(rt)?;
    brackets(rt)?;
    levels(rt)?;
    changes(rt)?;
    counts(rt)?;
    sounds(rt)
}

// ITP 1, step 1 dB, commands +1: -62, then -120.125, resume -120; under ITP 0 the step.
fn starred(rt: &impl Print) -> io::Result<()> {
    let bracket = resume_filter::bracket(1, 64, false, false);
    let start = resume_filter::empty();
    let once = resume_filter::update(start, bracket);
    let twice = resume_filter::update(once, bracket);
    println!(rt; "start {}", Shown(start))?;
    println!(rt; "once {}", Shown(once))?;
    println!(rt; "twice {}", Shown(twice))?;
    for (name, itp, step, command) in [
        ("1", 1, 64, 1),
        ("0, 1 dB, +1", 0, 64, 1),
        ("0, 2 dB, -1", 0, 128, -1),
        ("0, 2 dB, 0", 0, 128, 0),
        ("255", 255, 64, 1),
        ("0, 255 units, -128", 0, 255, -128),
    ] {
        let change = resume_filter::resume_change(itp, step, command, twice);
        let units = resume_filter::whole_units(change);
        println!(rt; "resume by itp {name} {units}")?;
    }
    Ok(())
}

// By the command, the step, and whether the row before and this one are limited.
fn brackets(rt: &impl Print) -> io::Result<()> {
    for (name, command, step, before, now) in [
        ("+1, 1 dB", 1, 64, false, false),
        ("-1, 1 dB, limited before", -1, 64, true, false),
        ("0, 1 dB, limited now", 0, 64, false, true),
        ("+1, 2 dB, limited now", 1, 128, false, true),
        ("-1, 2 dB", -1, 128, false, false),
        ("+1, 1 dB, both limited", 1, 64, true, true),
        ("-1, 2 dB, both limited", -1, 128, true, true),
        ("-128, 255 units", -128, 255, false, false),
    ] {
        let bracket = resume_filter::bracket(command, step, before, now);
        println!(rt; "bracket {name} {bracket}")?;
    }
    Ok(())
}

// Each is tested for the range and rounded; outside the range there is no level and no change.
fn levels(rt: &impl Print) -> io::Result<()> {
    for (name, level) in [
        ("0.0", 0.0),
        ("-0.0", -0.0),
        ("5e-324", 5e-324),
        ("-5e-324", -5e-324),
        ("0.49999999999999994", 0.49999999999999994),
        ("0.5", 0.5),
        ("-0.49999999999999994", -0.49999999999999994),
        ("-0.5", -0.5),
        ("-0.4", -0.4),
        ("1.5", 1.5),
        ("2.5", 2.5),
        ("-2.5", -2.5),
        ("-120.125", -120.125),
        ("1023.5", 1023.5),
        ("1983.4999999999998", 1983.4999999999998),
        ("1983.5", 1983.5),
        ("1984.0", 1984.0),
        ("-1984.0", -1984.0),
        ("1984.0000000000002", 1984.0000000000002),
        ("-1984.0000000000002", -1984.0000000000002),
        ("1.7976931348623157e308", 1.7976931348623157e308),
        ("infinity", f64::INFINITY),
        ("-infinity", f64::NEG_INFINITY),
        ("nan", f64::NAN),
    ] {
        let units = resume_filter::whole_units(Resume::Level(level));
        println!(rt; "level {name} {} {units}", Level(level))?;
    }
    Ok(())
}

// A change that is whole already stays what it is.
fn changes(rt: &impl Print) -> io::Result<()> {
    for units in [0, 128, i32::MIN, i32::MAX] {
        println!(rt;
            "whole {}",
            resume_filter::whole_units(Resume::Whole(units))
        )?;
    }
    Ok(())
}

// The count at the top of its type.
fn counts(rt: &impl Print) -> io::Result<()> {
    let last = Filter {
        level: 0.0,
        count: u32::MAX - 1,
    };
    let top = resume_filter::update(last, 0);
    println!(rt; "top {}", Shown(top))?;
    println!(rt; "top {}", Shown(resume_filter::update(top, 0)))
}

// The count against the rows of a state, and the level against the range.
fn sounds(rt: &impl Print) -> io::Result<()> {
    for (name, level, count, rows) in [
        ("0, no update, no row", 0.0, 0, 0),
        ("-0, an update, no row", -0.0, 1, 0),
        ("1984, 5 updates, 5 rows", 1984.0, 5, 5),
        ("above 1984, 5 updates, 5 rows", 1984.0000000000002, 5, 5),
        ("-1984, 6 updates, 5 rows", -1984.0, 6, 5),
    ] {
        let sound = resume_filter::sound(Filter { level, count }, rows);
        let answer = if sound { "yes" } else { "no" };
        println!(rt; "sound {name} {answer}")?;
    }
    Ok(())
}
