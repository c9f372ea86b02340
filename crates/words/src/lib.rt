// Texts that programs read: the lines of a text, the words of a line, numbers.
#![tactic(auto)]

ghost use Rattle.std.specs.Prelude.{ℕ, Bool, ◌+◌, ◌≤◌, ◌≡◌, length, drop};
ghost use Rattle.words.specs.Text.{words_of, same as same_as, number_of, numbers_of, LineTold, WordTold};
ghost use Rattle.words.specs.Text.{blank as blank_of};
ghost use Rattle.words.specs.Text.Parts.{is, Found, line_bytes, DigitsTold, TurnTold};

// The most digits that a number has.
const DIGITS_MOST: usize = 9;

// A line of a text: where the part with its words ends, at its comment or at its own end, where the next line starts, and
// whether no carriage return stands in it.
// Kept: a flag beside places, which `LineTold` promises of a line that is not clear too.
#[derive(Clone, Copy)]
pub struct Line {
    pub end: usize,
    pub next: usize,
    pub clear: bool,
}

// A word of a line: where it begins and ends.
#[derive(Clone, Copy)]
pub struct Word {
    pub begin: usize,
    pub end: usize,
}

// The words of a part of a line as numbers: how many words there are, counted up to ten, whether each of the first nine
// is a number, and these numbers, 0 for each that is missing or is none.
// Kept: `numbers_of` promises the count and all nine values also where `all` is false, so no Option holds them
#[derive(Clone, Copy)]
pub struct Numbers {
    pub count: usize,
    pub all: bool,
    pub values: [i32; 9],
}

// The first byte from a place on that passes a test, or the end.
fn find<F: Fn(u8) -> bool>(s: &[u8], at: usize, test: F) -> usize
    requires { F.IsAlwaysCallable test }
    ensures { (passes : ℕ → Bool) → ((b : ℕ) (r : Bool) → F.post test b r → r ≡ passes b) →
        Found passes s.now at result }
{
    for k in at..s.len() {
        if test(s[k]) {
            return k;
        }
    }
    at.max(s.len())
}

// Where the bytes of a line end that has its line feed, or the text's end, at a byte.
fn line_end(text: &[u8], at: usize, feed: usize) -> usize
    requires { Found (is 10) text.now at feed }
    ensures { result ≡ at + line_bytes (drop at text.now) }
{
    if feed < text.len() && at < feed && text[feed - 1] == b'\r' {
        feed - 1
    } else {
        feed
    }
}

// The line that starts at a byte of a text.
pub fn line_at(text: &[u8], at: usize) -> Line
    ensures { LineTold text.now at result }
{
    if text.len() <= at {
        return Line {
            end: at,
            next: at,
            clear: true,
        };
    }
    let feed = find(text, at, |b| b == b'\n');
    let bytes = &text[at..line_end(text, at, feed)];
    Line {
        end: at + find(bytes, 0, |b| b == b'#'),
        next: text.len().min(feed + 1),
        clear: !bytes.contains(&b'\r'),
    }
}

// A space or a tab.
fn blank(b: u8) -> bool
    ensures { result ≡ blank_of b }
{
    matches!(b, b' ' | b'\t')
}

// The first word from a byte of a line on.
pub fn word_at(line: &[u8], at: usize) -> Word
    ensures { WordTold line.now at result }
{
    let begin = find(line, at, |b| !blank(b));
    let end = find(line, begin, blank);
    Word { begin, end }
}

// Whether two words are one.
pub fn same(a: &[u8], b: &[u8]) -> bool
    ensures { result ≡ same_as a.now b.now }
{
    a == b
}

// The number that one to nine digits are.
// Kept: std's `parse` takes a `+` too, and zeros past nine digits; here one to nine digits alone are a number.
fn digits_of(word: &[u8]) -> Option<u32>
    ensures { DigitsTold word.now result }
{
    if word.is_empty() || DIGITS_MOST < word.len() {
        return None;
    }
    let mut value = 0;
    for &b in word {
        if !b.is_ascii_digit() {
            return None;
        }
        value = 10 * value + u32::from(b - b'0');
    }
    Some(value)
}

// The number that a word is.
pub fn number_of(word: &[u8]) -> Option<i32>
    ensures { result ≡ number_of word.now }
{
    match word.strip_prefix(b"-") {
        Some(digits) => digits_of(digits).map(|value| -(value as i32)),
        None => digits_of(word).map(|value| value as i32),
    }
}

// A word of a line as a number: none where it is missing, and in it none where it is no number; and where the next may
// begin.
#[derive(Clone, Copy)]
struct Turn {
    number: Option<Option<i32>>,
    next: usize,
}

// The first word from a byte of a line on as a number.
// Inlined always: a line takes ten turns, and where each was a call, texts of rows took 1.4 times as long.
#[inline(always)]
fn turn_at(line: &[u8], at: usize) -> Turn
    requires { at ≤ length line.now }
    ensures { TurnTold line.now at result }
{
    let word = word_at(line, at);
    let number = if word.begin < line.len() {
        Some(number_of(&line[word.begin..word.end]))
    } else {
        None
    };
    Turn {
        number,
        next: word.end,
    }
}

// The words of a part of a line as numbers.
pub fn numbers_of(line: &[u8]) -> Numbers
    ensures { result ≡ numbers_of (words_of line.now) }
{
    let mut values = [0; 9];
    let mut count = 0;
    let mut all = true;
    let mut at = 0;
    for value in values.iter_mut() {
        let turn = turn_at(line, at);
        count += usize::from(turn.number.is_some());
        all &= turn.number != Some(None);
        *value = turn.number.flatten().unwrap_or(0);
        at = turn.next;
    }
    let tenth = turn_at(line, at);
    Numbers {
        count: count + usize::from(tenth.number.is_some()),
        all,
        values,
    }
}
