// The steps of a call: 3 invoke, and 11 deliver of a call and of its reply.
// Each equals its definition in rules' specs/Calls.antt: the checks in the order of the refusal table, then the records that are left.
#![tactic(auto)]

pub mod collected;
pub mod delivered;
pub mod invoked;
