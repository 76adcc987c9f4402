// What becomes of a message: 11 deliver, 12 drop.
// Each equals its definition in rules' specs/Calls.antt: the checks in the order of the refusal table, then the records that are left.
#![tactic(auto)]

pub mod delivered;
pub mod dropped;
