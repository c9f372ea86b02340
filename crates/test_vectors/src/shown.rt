// How a level and a filter are shown. A level is shown by its bits, in hexadecimal digits.
use resume_filter::{Filter, Resume};
use std::fmt;

// A level by its bits, and a dash for what is none.
#[derive(Clone, Copy)]
pub struct Level(pub f64);

impl fmt::Display for Level {
    fn fmt<W: fmt::Write>(&self, f: &mut fmt::Formatter<W>) -> fmt::Result {
        match bits(self.0) {
            Some(bits) => write!(f, "{bits:016x}"),
            None => write!(f, "-"),
        }
    }
}

// A filter: its level, the count of its updates, and the level in whole units.
#[derive(Clone, Copy)]
pub struct Shown(pub Filter);

impl fmt::Display for Shown {
    fn fmt<W: fmt::Write>(&self, f: &mut fmt::Formatter<W>) -> fmt::Result {
        let Filter { level, count } = self.0;
        let units = resume_filter::whole_units(Resume::Level(level));
        write!(f, "{} {count} {units}", Level(level))
    }
}

// The bits of a number in the range of a level.
pub fn bits(level: f64) -> Option<u64> {
    if resume_filter::in_range(level) {
        return Some(level.to_bits());
    }
    None
}
