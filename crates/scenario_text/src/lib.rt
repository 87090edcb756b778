// The text of scenarios: the words of a line, the numbers that they write, and what can be wrong with them.
#![tactic(auto)]

pub mod mistake;
pub mod number;
pub mod words;
