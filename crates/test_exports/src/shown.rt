// How an answer is shown: its parts, each after a space.
use std::fmt::Display;
use std::io;

// So many parts of a level make one.
const PARTS: f64 = 4398046511104.0;

// The name of what is called, the number of a refusal and the place behind the pointer, which is given to the call.
pub fn told<F: FnOnce(&mut usize) -> u8>(rt: &impl Print, name: &str, call: F) -> io::Result<()>
    requires { F.IsAlwaysCallable call }
{
    let mut place = crate::NOWHERE;
    let number = call(&mut place);
    print!(rt; "{name} {number} at {place}")
}

// What was lent, after its name, and the end of the line.
pub fn lent<T: Display>(rt: &impl Print, name: &str, list: &[T]) -> io::Result<()> {
    print!(rt; ", {name}")?;
    each(rt, list)?;
    println!(rt)
}

fn each<T: Display>(rt: &impl Print, list: &[T]) -> io::Result<()> {
    for x in list {
        print!(rt; " {x}")?;
    }
    Ok(())
}

// The numbers of a state, then its level in parts, without what is left of a part.
pub fn state(rt: &impl Print, numbers: &[i64], level: f64) -> io::Result<()> {
    print!(rt; "  state")?;
    each(rt, numbers)?;
    if level.is_nan() {
        return println!(rt; ", level nan");
    }
    let parts = level * PARTS;
    if parts < 0.0 {
        return println!(rt; ", level -{}", size(-parts));
    }
    println!(rt; ", level {}", size(parts))
}

// What is before the point, and 0 where it is more than 64 bits hold.
fn size(x: f64) -> u64 {
    if x > -1.0 {
        if x < 18446744073709551616.0 {
            return std::num::truncating_f64_to_u64(x);
        }
    }
    0
}
