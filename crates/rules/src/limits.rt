// The ranges of document 01, "Tables and numbers": the largest number that each allows, as wide as the field that it bounds.
// The definitions name the same limits in specs/Limits.antt.

// A clock, or a stamp.
pub const CLOCK_MOST: u64 = 2000000000;

// A quiesce or release time.
pub const TIME_MOST: u32 = 1000000000;

// A width figure in mm.
pub const WIDTH_MOST: u32 = 1000000;

// A round number, or a count of calls.
pub const COUNT_MOST: u16 = 1000;

// A handle: slot 15 in generation 255.
pub const HANDLE_MOST: u16 = 4095;

// What one tick moves a clock by.
pub const TICK_MOST: u32 = 1000000;

pub const SITE_MOST: u8 = 7;

pub const SLOT_MOST: u8 = 15;

pub const OBJECT_MOST: u8 = 31;

// A message slot.
pub const MESSAGE_MOST: u8 = 31;
