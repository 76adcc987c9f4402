// What each of the sixteen steps decides from what it saw, and what each turn of a sweep or a crash leaves and counts.
// None of these holds the tables.
#![tactic(auto)]

pub mod decide;
pub mod turns;
