// A refusal, as a line tells it.
use ground::Refusal;
use std::fmt;

#[derive(Clone, Copy)]
pub struct Refused(pub Refusal);

impl fmt::Display for Refused {
    fn fmt<W: fmt::Write>(&self, f: &mut fmt::Formatter<W>) -> fmt::Result {
        write!(f, "refused {} at {}", self.0.number, self.0.place)
    }
}
