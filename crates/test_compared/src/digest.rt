// A digest of 64 bits, FNV-1a: of bytes, and of numbers of 32 bits as four bytes each, the lowest first, in two's
// complement.
use ground::Refusal;
use std::fmt;

// Shown as sixteen hexadecimal digits.
#[derive(Clone, Copy)]
pub struct Digest(u64);

// The digest of nothing.
pub const NOTHING: Digest = Digest(14695981039346656037);

// 2^40 + 435
const PRIME: u64 = 1099511628211;

impl Digest {
    // The digest of these bytes alone.
    pub fn of(bytes: &[u8]) -> Digest {
        NOTHING.bytes(bytes)
    }

    pub fn bytes(self, added: &[u8]) -> Digest {
        let mut digest = self.0;
        for byte in added {
            digest = (digest ^ u64::from(*byte)).wrapping_mul(PRIME);
        }
        Digest(digest)
    }

    pub fn numbers(self, added: &[i32]) -> Digest {
        let mut digest = self;
        for n in added {
            digest = digest.bytes(&n.to_le_bytes());
        }
        digest
    }

    pub fn word(self, added: u32) -> Digest {
        self.bytes(&added.to_le_bytes())
    }

    // Its number, and the low 32 bits of its place.
    pub fn refusal(self, r: Refusal) -> Digest {
        self.word(u32::from(r.number))
            .word((r.place & 0xffff_ffff) as u32)
    }
}

impl fmt::Display for Digest {
    fn fmt<W: fmt::Write>(&self, f: &mut fmt::Formatter<W>) -> fmt::Result {
        write!(f, "{:016x}", self.0)
    }
}
