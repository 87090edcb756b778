// Scenarios: the statements of their lines, the questions that they ask, the answers, and the report.
#![tactic(auto)]

pub mod answers;
pub mod report;
pub mod script;
pub mod statement;
