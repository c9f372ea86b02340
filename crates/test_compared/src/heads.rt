// The head of a block, 24 bytes, and what it asks for.
ghost use Rattle.std.specs.Prelude.{◌≤◌};

pub const HEAD_BYTES: usize = 24;

// What a head says. Numbers are little-endian.
#[derive(Clone, Copy)]
pub struct Head {
    // bytes 0 to 3: how many bytes follow
    pub length: usize,
    // bytes 8 to 11: how many numbers are lent for the answers of a job, or how many bytes for a file
    pub lent: usize,
    // byte 4, the marks: below 8 a job follows
    pub asked: Asked,
}

#[derive(Clone, Copy)]
pub enum Asked {
    Listing(Marks),
    File(Source),
}

// What is asked of a job beside its listing.
#[derive(Clone, Copy)]
pub struct Marks {
    // mark 1: single steps
    pub steps: bool,
    // mark 2: a run into a lent buffer
    pub lent: bool,
    // mark 4: a state with a field changed
    pub change: Option<Change>,
}

#[derive(Clone, Copy)]
pub struct Change {
    // bytes 6 and 7: how many rows of the file are offered before it is changed
    pub before: usize,
    // byte 5: the field, 0 to 18
    pub field: u8,
    // bytes 12 to 15: the field's new value, of which a field of one byte has the lowest
    pub value: u32,
    // bytes 16 to 23: the new value where it is the filter's level
    pub level: f64,
}

// What a file is made of.
#[derive(Clone, Copy)]
pub enum Source {
    // mark 8: parts that are written
    Parts(Cut),
    // mark 16: a text that is composed
    Text,
}

// How the bytes of a block are cut into parts: the rows follow the settings and the records.
#[derive(Clone, Copy)]
pub struct Cut {
    // byte 5
    // Kept: `job_writer::write` takes the kind as a byte, and is tried with wrong ones too
    pub kind: u8,
    // bytes 12 to 15: how many of the bytes are settings
    pub settings: usize,
    // bytes 16 to 19: how many of the bytes are records
    pub records: usize,
}

pub fn read(head: &[u8; HEAD_BYTES]) -> Head {
    let marks = head[4];
    let asked = match marks {
        0..=7 => Asked::Listing(Marks {
            steps: marks & 1 != 0,
            lent: marks & 2 != 0,
            change: (marks & 4 != 0).then_some(field_change(head)),
        }),
        8..=15 => Asked::File(Source::Parts(Cut {
            kind: head[5],
            settings: word(head, 12) as usize,
            records: word(head, 16) as usize,
        })),
        _ => Asked::File(Source::Text),
    };
    Head {
        length: word(head, 0) as usize,
        lent: word(head, 8) as usize,
        asked,
    }
}

// What mark 4 asks for.
fn field_change(head: &[u8; HEAD_BYTES]) -> Change {
    Change {
        before: usize::from(u16::from_le_bytes([head[6], head[7]])),
        field: head[5],
        value: word(head, 12),
        level: level(word(head, 16), word(head, 20)),
    }
}

// The number whose four bytes start here.
fn word(head: &[u8; HEAD_BYTES], at: usize) -> u32
    requires { at ≤ 20 }
{
    u32::from_le_bytes([head[at], head[at + 1], head[at + 2], head[at + 3]])
}

// A level from its halves: the top bit is the sign, and the other bits are a number of parts, 2^42 to a unit.
fn level(small: u32, large: u32) -> f64 {
    let parts = u64::from(large % (1 << 31)) << 32 | u64::from(small);
    let size = std::num::nearest_u64_to_f64(parts) / 4398046511104.0;
    if large < 1 << 31 { size } else { -size }
}
