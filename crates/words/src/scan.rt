// The state of a reader of words, byte by byte.

// A line has at most so many bytes, its newline apart.
pub const LINE_MOST: u32 = 1000;

// A sheet holds at most so many records.
pub const RECORD_MOST: u32 = 4095;

// A text has fewer lines than this, those that say nothing counted.
pub const LINES_MOST: u32 = 1000000;

// What is wrong with a line. The number of each is its place here, from 1.
#[derive(Clone, Copy)]
pub enum Fault {
    UnknownWord,
    MissingField,
    TooLarge,
    LineTooLong,
    TooManyLines,
}

// Where the reader stands in a line: between two words, in a word, in a number, in a comment, or past something wrong.
#[derive(Clone, Copy)]
pub enum Mode {
    Gap,
    Word,
    Number,
    Comment,
    Wrong(Fault),
}

// A line under way: the word or number so far, the place in the grammar, the hex digits so far, and the record so far.
#[derive(Clone, Copy)]
pub struct Scan {
    pub mode: Mode,
    pub token: u64,
    pub node: u8,
    pub digits: u8,
    pub bytes: [u8; 16],
}

// What a whole line says, if nothing is wrong with it: nothing, or a record.
#[derive(Clone, Copy)]
pub enum Line {
    Blank,
    Record,
}

// A text under way: what reading stopped at, if something is wrong, the line under way and its bytes so far, the lines that have ended, and the records so far.
#[derive(Clone, Copy)]
pub struct Reader {
    pub stop: Option<Fault>,
    pub scan: Scan,
    pub length: u32,
    pub lines: u32,
    pub count: u32,
}
