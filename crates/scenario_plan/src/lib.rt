// Plans: personalities as scenarios write them, which own their lists. They are read from words.
#![tactic(auto)]

pub mod read;
