// Where each of the sixteen steps looks.
// Each function equals its definition in rules' specs/Machine.antt.
#![tactic(auto)]

pub mod look;
