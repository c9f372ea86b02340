// The lines of a job's text: what each of them gives to the job.
#![tactic(auto)]

ghost use Rattle.std.specs.Prelude.{◌≡◌, ◌<◌, unwrap_or};
ghost use Rattle.ground.specs.Choice.{when◌then◌else◌};
ghost use Rattle.ground.specs.Integers.{within};
ghost use Rattle.words.specs.Text.{words_of};
ghost use Rattle.compose_lines.specs.Lines.{at, nat, is_byte, is_pair, is_signed_byte, is_count};
ghost use Rattle.compose_lines.specs.Lines.{settings_item, gain_item, gap_item, row_item, rows_item, item_by, item_of};

use gap_records::Sequence;
use job_settings::Settings;
use power::Triple;
use words::Numbers;

// The most rows that one line gives.
const ROWS_MOST: i32 = 999_999_999;

// What a line gives: nothing, the settings, the triple, a gap record, so many rows of one kind, or it is unreadable.
#[derive(Clone, Copy)]
pub enum Item {
    Blank,
    Settings(Settings),
    Gain(Triple),
    Gap(Sequence),
    Rows(u32, u8, u8),
    Unreadable,
}

// Number k of a line, where it lies in a range.
// Kept: each caller writes k out, and nine is the length of the array; a type for such a number would be no plainer.
fn number(n: Numbers, k: usize, least: i32, most: i32) -> Option<i32>
    requires { k < 9 }
    ensures { result ≡ (when within least most (at n k) then Some (at n k) else None) }
{
    let value = n.values[k];
    ground::between(value, least, most).then_some(value)
}

// Number k of a line as a byte, where a byte holds it.
// Kept: three types, each by a test of its own (`is_byte`, `is_pair`, `is_signed_byte`); a generic would be handed it.
fn byte(n: Numbers, k: usize) -> Option<u8>
    requires { k < 9 }
    ensures { result ≡ (when is_byte (at n k) then Some (nat n k) else None) }
{
    u8::try_from(n.values[k]).ok()
}

// Number k of a line as two bytes, where these hold it.
fn pair(n: Numbers, k: usize) -> Option<u16>
    requires { k < 9 }
    ensures { result ≡ (when is_pair (at n k) then Some (nat n k) else None) }
{
    u16::try_from(n.values[k]).ok()
}

// Number k of a line as a byte with a sign, where one holds it.
fn signed_byte(n: Numbers, k: usize) -> Option<i8>
    requires { k < 9 }
    ensures { result ≡ (when is_signed_byte (at n k) then Some (at n k) else None) }
{
    i8::try_from(n.values[k]).ok()
}

// Number k of a line as a count of rows, where it is one.
fn count(n: Numbers, k: usize) -> Option<u32>
    requires { k < 9 }
    ensures { result ≡ (when is_count (at n k) then Some (nat n k) else None) }
{
    let value = number(n, k, 0, ROWS_MOST)?;
    Some(value as u32)
}

// What a line of settings gives, if it has its numbers, each in its range.
#[tactic(auto, using(crate::proofs::Laws::Lines::fails), unfolding(crate::specs::Lines::settings_fit, crate::specs::Lines::settings_item))]
fn settings_item(n: Numbers) -> Option<Item>
    ensures { unwrap_or result Item.Unreadable ≡ settings_item n }
{
    if n.count != 7 || !n.all {
        return None;
    }
    Some(Item::Settings(Settings {
        pca: byte(n, 0)?,
        step: byte(n, 1)?,
        itp: byte(n, 2)?,
        rpp: byte(n, 3)?,
        links: byte(n, 4)?,
        maximum: signed_byte(n, 5)?,
        start: number(n, 6, -32768, 32767)?,
    }))
}

// What a line of gain factors gives, if it has its numbers, each in its range.
#[tactic(auto, using(crate::proofs::Laws::Lines::fails), unfolding(crate::specs::Lines::gain_item))]
fn gain_item(n: Numbers) -> Option<Item>
    ensures { unwrap_or result Item.Unreadable ≡ gain_item n }
{
    if n.count != 3 || !n.all {
        return None;
    }
    Some(Item::Gain(Triple {
        betac: byte(n, 0)?,
        betad: byte(n, 1)?,
        channels: byte(n, 2)?,
    }))
}

// What a line of a gap gives, if it has its numbers, each in its range.
#[tactic(auto, using(crate::proofs::Laws::Lines::fails), unfolding(crate::specs::Lines::gap_fit, crate::specs::Lines::gap_item))]
fn gap_item(n: Numbers) -> Option<Item>
    ensures { unwrap_or result Item.Unreadable ≡ gap_item n }
{
    if n.count != 9 || !n.all {
        return None;
    }
    Some(Item::Gap(Sequence {
        id: byte(n, 0)?,
        direction: byte(n, 1)?,
        tgsn: byte(n, 2)?,
        tgl1: byte(n, 3)?,
        tgl2: byte(n, 4)?,
        tgpl: byte(n, 5)?,
        tgprc: pair(n, 6)?,
        tgd: pair(n, 7)?,
        start: pair(n, 8)?,
    }))
}

// What a line of one row gives, if it has its numbers, each in its range.
#[tactic(auto, using(crate::proofs::Laws::Lines::fails), unfolding(crate::specs::Lines::row_item))]
fn row_item(n: Numbers) -> Option<Item>
    ensures { unwrap_or result Item.Unreadable ≡ row_item n }
{
    if n.count != 2 || !n.all {
        return None;
    }
    Some(Item::Rows(1, byte(n, 0)?, byte(n, 1)?))
}

// What a line of many rows gives, if it has its numbers, each in its range.
#[tactic(auto, using(crate::proofs::Laws::Lines::fails), unfolding(crate::specs::Lines::rows_item))]
fn rows_item(n: Numbers) -> Option<Item>
    ensures { unwrap_or result Item.Unreadable ≡ rows_item n }
{
    if n.count != 3 || !n.all {
        return None;
    }
    Some(Item::Rows(count(n, 0)?, byte(n, 1)?, byte(n, 2)?))
}

// What a line gives, by its first word and its numbers.
#[tactic(auto, unfolding(crate::specs::Lines::item_by))]
fn by_keyword(keyword: &[u8], n: Numbers) -> Item
    ensures { result ≡ item_by keyword.now n }
{
    let item = if words::same(keyword, b"settings") {
        settings_item(n)
    } else if words::same(keyword, b"gain") {
        gain_item(n)
    } else if words::same(keyword, b"gap") {
        gap_item(n)
    } else if words::same(keyword, b"row") {
        row_item(n)
    } else if words::same(keyword, b"rows") {
        rows_item(n)
    } else {
        None
    };
    item.unwrap_or(Item::Unreadable)
}

// What a line gives, by its words.
pub fn item_of(line: &[u8]) -> Item
    ensures { result ≡ item_of (words_of line.now) }
{
    let word = words::word_at(line, 0);
    if line.len() <= word.begin {
        return Item::Blank;
    }
    let numbers = words::numbers_of(&line[word.end..]);
    by_keyword(&line[word.begin..word.end], numbers)
}
