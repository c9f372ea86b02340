// The listing's text in lent bytes: the header, a line for each row, the last line and a refusal, each from a place on.
// Where there might not be room, nothing is stored.
#![tactic(auto)]

ghost use Rattle.std.specs.Prelude.{◌+◌, ◌*◌, ◌≤◌, ◌<◌, ◌≡◌, [], ◌∷◌, leb, length};
ghost use Rattle.constants.specs.Sizes.{line_room};
ghost use Rattle.row_values.specs.Answers.{whole_answers, answers_in};
ghost use Rattle.listing_rules.specs.Text.{WroteLines, set_in, by_field, line_start, signed_text, refusal_line};
ghost use Rattle.listing_rules.specs.Text.{decimal as decimal_of, ending as ending_of};
ghost use Rattle.listing_rules.specs.Text.{header as header_of};
ghost use Rattle.listing_rules.specs.Text.{line as line_of, lines as lines_of, powers as powers_of};
ghost use Rattle.listing_text.specs.Asks.{HasRoom, Adds, AddsLines, field_of, id_stored};

use ground::Refusal;
use itoa::Buffer;
use row_values::Answer;

// A lent buffer and the place where the next byte is stored.
#[derive(Drop)]
struct Pen<'a> {
    out: &'a mut [u8],
    at: usize,
}

impl Pen<'_> {
    // Whether so many lines fit.
    fn has_lines(&self, lines: usize) -> bool
        ensures { result ≡ leb (self.now.at + line_room * lines) (length self.now.out.now) }
    {
        let size = self.out.len();
        self.at <= size && lines <= (size - self.at) / constants::LINE_ROOM
    }

    fn byte(&mut self, b: u8)
        requires { HasRoom self.old 1 }
        ensures { Adds self.old self.new (b ∷ []) }
    {
        self.out[self.at] = b;
        self.at += 1;
    }

    fn word(&mut self, bytes: &[u8])
        requires { HasRoom self.old (length bytes.now) }
        ensures { Adds self.old self.new bytes.now }
    {
        let end = self.at + bytes.len();
        self.out[self.at..end].copy_from_slice(bytes);
        self.at = end;
    }

    // A number in decimal.
    fn decimal(&mut self, n: u64)
        requires { HasRoom self.old 20 }
        ensures { Adds self.old self.new (decimal_of n) }
    {
        self.word(Buffer::new().format(n).as_bytes());
    }

    fn signed_text(&mut self, x: i32)
        requires { HasRoom self.old 21 }
        ensures { Adds self.old self.new (signed_text x) }
    {
        self.word(Buffer::new().format(x).as_bytes());
    }

    // A space, then a number, or "-" where there is none.
    fn field(&mut self, x: Option<i32>)
        requires { HasRoom self.old 22 }
        ensures { Adds self.old self.new (field_of x) }
    {
        self.byte(b' ');
        match x {
            Some(x) => self.signed_text(x),
            None => self.byte(b'-'),
        }
    }

    fn line_start(&mut self, row: u64, a: Answer)
        requires { HasRoom self.old 64 }
        ensures { Adds self.old self.new (line_start row a) }
    {
        self.decimal(row);
        self.field(Some(a.state));
        self.field(Some(a.command));
    }

    fn powers(&mut self, sends: bool, a: Answer)
        requires { HasRoom self.old 66 }
        ensures { Adds self.old self.new (powers_of sends a) }
    {
        let sent = 0 < a.state;
        self.field(sent.then_some(a.dpcch));
        self.field((sent & sends).then_some(a.dpdch));
        self.field(sent.then_some(a.total));
    }

    // An id: a space before the first of its line, a comma before a later one.
    fn id(&mut self, later: bool, id: u8)
        requires { HasRoom self.old 2 × (id < 10) }
        ensures { Adds self.old self.new (id_stored later id) }
    {
        self.byte(if later { b',' } else { b' ' });
        self.byte(b'0' + id);
    }

    // The ids of either direction, or "-".
    fn by_field(&mut self, a: Answer)
        requires { HasRoom self.old 12 }
        ensures { Adds self.old self.new (by_field a) }
    {
        let start = self.at;
        let ids = id_set(a.uplink) | id_set(a.downlink);
        for k in 0..constants::ID_MOST {
            if (ids >> k) % 2 == 1 {
                self.id(start < self.at, k + 1);
            }
        }
        if start < self.at {
            return;
        }
        self.word(b" -");
    }

    // One row's line.
    fn line(&mut self, sends: bool, row: u64, a: Answer)
        requires { HasRoom self.old line_room }
        ensures { Adds self.old self.new (line_of sends row a) }
    {
        self.line_start(row, a);
        self.powers(sends, a);
        self.field(Some(a.held));
        self.by_field(a);
        self.byte(b'\n');
    }

    // A line for each answer of a buffer, the first with the number `row`.
    fn lines(&mut self, sends: bool, row: u32, answers: &[i32])
        ensures { let l = answers.now in
            AddsLines self.old self.new (whole_answers l) (lines_of sends row (answers_in l)) }
    {
        let count = answers.len() / constants::ANSWER_NUMBERS;
        if !self.has_lines(count) {
            return;
        }
        for k in 0..count {
            let number = u64::from(row) + k as u64;
            self.line(sends, number, row_values::answer_at(answers, k));
        }
    }

    // The first line.
    fn header(&mut self)
        ensures { AddsLines self.old self.new 1 header_of }
    {
        if !self.has_lines(1) {
            return;
        }
        self.word(b"row state cmd dpcch dpdch total held by\n");
    }

    // The last line.
    fn ending(&mut self, rows: u32, held: i32)
        ensures { AddsLines self.old self.new 1 (ending_of rows held) }
    {
        if !self.has_lines(1) {
            return;
        }
        self.word(b"rows ");
        self.decimal(u64::from(rows));
        self.word(b" held ");
        self.signed_text(held);
        self.byte(b'\n');
    }

    // A refusal's line.
    fn refusal_line(&mut self, r: Refusal)
        ensures { AddsLines self.old self.new 1 (refusal_line r) }
    {
        if !self.has_lines(1) {
            return;
        }
        self.word(b"refused ");
        self.decimal(u64::from(r.number));
        self.word(b" at ");
        self.decimal(r.place as u64);
        self.byte(b'\n');
    }
}

// The set that a number of an answer stands for.
fn id_set(x: i32) -> u32
    ensures { result ≡ set_in x }
{
    ground::magnitude(x.max(0))
}

// A line for each answer of a buffer, the first with the number `row`.
// Kept: four public functions are lent a buffer and a place, and `WroteLines` promises both; inside, a pen holds them.
pub fn lines(out: &mut [u8], at: usize, sends: bool, row: u32, answers: &[i32]) -> usize
    ensures { let l = answers.now in
        WroteLines result out.new out.old at (whole_answers l) (lines_of sends row (answers_in l)) }
{
    let mut pen = Pen { out, at };
    pen.lines(sends, row, answers);
    pen.at
}

// The first line.
pub fn header(out: &mut [u8], at: usize) -> usize
    ensures { WroteLines result out.new out.old at 1 header_of }
{
    let mut pen = Pen { out, at };
    pen.header();
    pen.at
}

// The last line.
pub fn ending(out: &mut [u8], at: usize, rows: u32, held: i32) -> usize
    ensures { WroteLines result out.new out.old at 1 (ending_of rows held) }
{
    let mut pen = Pen { out, at };
    pen.ending(rows, held);
    pen.at
}

// A refusal's line.
pub fn refusal_line(out: &mut [u8], at: usize, r: Refusal) -> usize
    ensures { WroteLines result out.new out.old at 1 (refusal_line r) }
{
    let mut pen = Pen { out, at };
    pen.refusal_line(r);
    pen.at
}
