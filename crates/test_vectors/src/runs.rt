// Long runs. Each shows a digest of every level on the way, and the filter at the end.
ghost use Rattle.std.specs.Iterator.{at_most, IsFinite};

use crate::shown::{self, Shown};
use resume_filter::Filter;
use std::{fmt, io, iter};

const MODULUS: u64 = 1 << 31;

// Brackets drawn from the five that there are, so many.
#[derive(Drop)]
struct Draws {
    draw: u64,
    left: u32,
}

impl Iterator for Draws {
    type Item = i32;

    ghost remaining = { λ s. at_most s.left };

    fn next(&mut self) -> Option<i32> {
        if self.left == 0 {
            return None;
        }
        self.left -= 1;
        self.draw = (self.draw % MODULUS * 1103515245 + 12345) % MODULUS;
        Some(match self.draw / 65536 % 5 {
            0 => -124,
            1 => -62,
            2 => 0,
            3 => 62,
            _ => 124,
        })
    }
}

// What a run ends with.
#[derive(Clone, Copy)]
struct Run {
    filter: Filter,
    digest: u64,
}

impl fmt::Display for Run {
    fn fmt<W: fmt::Write>(&self, f: &mut fmt::Formatter<W>) -> fmt::Result {
        write!(f, "{:016x} {}", self.digest, Shown(self.filter))
    }
}

pub fn show(rt: &impl Print) -> io::Result<()> {
    constants(rt)?;
    decays(rt)?;
    drawn(rt)
}

fn constants(rt: &impl Print) -> io::Result<()> {
    for (name, bracket, updates) in [
        ("12 times -124", -124, 12),
        ("29999 times -124", -124, 29999),
        ("29999 times +124", 124, 29999),
        ("29999 times -62", -62, 29999),
    ] {
        let run = updated(resume_filter::empty(), iter::repeat_n(bracket, updates));
        println!(rt; "{name} {run}")?;
    }
    Ok(())
}

// From a level towards 0, with nothing taken off: it stops among the smallest numbers that there are.
fn decays(rt: &impl Print) -> io::Result<()> {
    for (name, level, updates) in [
        ("11000 times 0 from 62", 62.0, 11000),
        ("12000 times 0 from 62", 62.0, 12000),
        ("3 times 0 from -0", -0.0, 3),
        ("3 times 0 from the least number", 5e-324, 3),
        ("3 times 0 from -8 of the least", -4e-323, 3),
    ] {
        let start = Filter { level, count: 0 };
        println!(rt; "{name} {}", updated(start, iter::repeat_n(0, updates)))?;
    }
    Ok(())
}

fn drawn(rt: &impl Print) -> io::Result<()> {
    for (draw, left) in [(1, 11), (1, 30000), (2, 30000), (3, 100000)] {
        let run = updated(resume_filter::empty(), Draws { draw, left });
        println!(rt; "{left} drawn by {draw} {run}")?;
    }
    Ok(())
}

// Updates with one bracket after another.
fn updated<I: Iterator<Item = i32>>(start: Filter, brackets: I) -> Run
    requires can { I.can_next brackets }
    requires ends { IsFinite (I.remaining brackets) }
{
    let mut run = Run {
        filter: start,
        digest: 0,
    };
    for bracket in brackets {
        let filter = resume_filter::update(run.filter, bracket);
        let digest = mixed(run.digest, filter.level);
        run = Run { filter, digest };
    }
    run
}

// Three times the digest and the level's bits, modulo 2^64: it tells the order too. A level that is out of range counts
// as 0.
fn mixed(digest: u64, level: f64) -> u64 {
    digest
        .wrapping_mul(3)
        .wrapping_add(shown::bits(level).unwrap_or(0))
}
