// The line of a record, put on a page: words where it stands for a step, else `raw` and its bytes in hex.
#![tactic(auto)]

pub mod line;
mod tokens;
