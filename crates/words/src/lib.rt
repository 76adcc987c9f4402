// The text form of a sheet: one step to a line, in document 01's own words.
// The types of its grammar, of its reader and of its writer, and the number of each word; what they mean is said in specs/.
#![tactic(auto)]

pub mod rows;
pub mod scan;
pub mod tokens;
pub mod vocabulary;
