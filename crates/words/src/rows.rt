// The rows of the two tables of the grammar.

// How many edges there are.
pub const EDGE_COUNT: usize = 31;

// The place of `raw`.
pub const RAW_NODE: u8 = 30;

// What a word says of the record: byte `field` is `value`.
#[derive(Clone, Copy)]
pub struct Said {
    pub field: u8,
    pub value: u8,
}

// At place `from` the word leads to place `to`, and may say a byte of the record.
#[derive(Clone, Copy)]
pub struct Edge {
    pub from: u8,
    pub word: u64,
    pub to: u8,
    pub says: Option<Said>,
}

// A number goes into `width` bytes of the record from byte `field` on, and leads to place `to`.
#[derive(Clone, Copy)]
pub struct Slot {
    pub field: u8,
    pub width: u8,
    pub to: u8,
}
