// The types of the step machine: its tables, its steps, its answers.
// No function stands here: what the types mean is said in specs/, and the code that works on them is in the crates above.
// Every number is wide enough to hold one that is out of range, since refusal 20 has to see it.
#![tactic(auto)]

pub mod limits;
pub mod looking;
pub mod outcomes;
pub mod steps;
pub mod tables;
