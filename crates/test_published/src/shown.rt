// How a refusal and a command are shown.
use ground::Refusal;
use std::io;

pub fn refusal(rt: &impl Print, r: Refusal) -> io::Result<()> {
    print!(rt; " refused {} at {}", r.number, r.place)
}

// A command.
pub fn sign(command: i8) -> char {
    match command {
        0 => '0',
        1.. => '+',
        _ => '-',
    }
}
