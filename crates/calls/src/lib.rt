// The plain types of the unwinder: its twelve calls, their answers, and the records that its state is made of.
#![tactic(auto)]

pub mod answer;
pub mod call;
pub mod exception;
pub mod frame;
