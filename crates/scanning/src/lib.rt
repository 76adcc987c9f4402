// A line of words, byte by byte, into a record.
// Each function equals its definition in words' specs/Scan.antt.
#![tactic(auto)]

pub mod bytes;
mod fields;
pub mod line;
