// What an unwinder asks of a frame, what it may be answered, and the layers that pass questions on.
#![tactic(auto)]

pub mod fault;
pub mod interface;
pub mod layers;
pub mod verdict;
