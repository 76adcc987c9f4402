// The line that names a fault: the bad line's number, what is wrong, what stood there and what was expected.
// Each function equals its definition in words' specs/Faults.antt.
#![tactic(auto)]

mod expected;
mod found;
pub mod named;
