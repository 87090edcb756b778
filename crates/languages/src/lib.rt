// Languages: the class of their exceptions, and which catch types catch a thrown type.
#![tactic(auto)]

pub mod exact;
pub mod language;
pub mod owned;
pub mod tree;
