// The numbers that the documents fix and that more than one crate asks for, each under its name. No code. The same
// names in specs/ are what a reader must believe; a wrong number here is refused wherever a promise rests on it.
#![tactic(auto)]

// ---- the job file

// most bytes of a file
pub const FILE_MOST: usize = 65536;
// bytes of the table of contents, after which the first body begins
pub const CONTENTS_BYTES: usize = 29;
// bytes of the settings
pub const SETTINGS_BYTES: usize = 12;
// where the triple stands in the settings, and where the powers do
pub const GAINS_PLACE: usize = 5;

pub const POWERS_PLACE: usize = 8;
// bytes of a triple
pub const TRIPLE_BYTES: usize = 3;
// bytes of a gap record, and how many there may be
pub const RECORD_BYTES: usize = 12;

pub const RECORDS_MOST: usize = 6;
// the largest id of a record; the least is 1
pub const ID_MOST: u8 = 6;
// bytes of a row, and how many rows there may be
pub const ROW_BYTES: usize = 2;

pub const ROWS_MOST: u32 = 30000;
// pilot bits of a sent row
pub const PILOTS_LEAST: u8 = 3;

pub const PILOTS_MOST: u8 = 8;

// ---- powers, in units of 1/64 dB

// the lowest control power, and the highest that a job may start from
pub const POWER_LEAST: i32 = -9600;

pub const START_MOST: i32 = 2112;

// ---- answers and the listing

// numbers of a row's answer
pub const ANSWER_NUMBERS: usize = 8;
// bytes that a line of the listing may have
pub const LINE_ROOM: usize = 176;
// least bytes of a buffer for a piece of the listing: a row's line and a last one
pub const PIECE_LEAST: usize = LINE_ROOM + LINE_ROOM;
// most rows of a piece, and the numbers of their answers
pub const PIECE_ROWS: usize = 512;

pub const PIECE_NUMBERS: usize = ANSWER_NUMBERS * PIECE_ROWS;

// pieces that are always enough for a listing: one with the header, one for each row, one with the last line
pub const PIECES_MOST: u32 = ROWS_MOST + 2;

// ---- texts that programs read

// most bytes of a text
pub const TEXT_MOST: usize = 1048576;

// ---- refusals

// Kept: numbers: C is handed one, `listing_text::refusal_line` has a line for any, theorems on `Refusal` speak of all
pub const FILE_TOO_LONG: u8 = 1;

pub const WRONG_CONTENTS: u8 = 2;

pub const WRONG_SETTINGS: u8 = 3;

pub const TOO_MANY_RECORDS: u8 = 4;

pub const WRONG_RECORD: u8 = 5;

pub const REPEATED_ID: u8 = 6;

pub const TOO_MANY_ROWS: u8 = 7;

pub const WRONG_ROW: u8 = 8;

pub const POWER_TOO_LOW: u8 = 9;

pub const SHORT_ANSWERS: u8 = 10;

pub const WRONG_STATE: u8 = 11;

pub const SHORT_BYTES: u8 = 12;

pub const WRONG_CELL: u8 = 13;
