// The small changes of single records that the sixteen steps are made of.
// Each function equals the definition of the same name in rules' specs/Parts.antt, unless its file says another.
#![tactic(auto)]

pub mod message;
pub mod object;
pub mod passage;
pub mod round;
pub mod seen;
pub mod visit;
