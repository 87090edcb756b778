// Personalities chosen at run time: a tree of layers over leaves.
#![tactic(auto)]

pub mod leaf;
pub mod tree;
