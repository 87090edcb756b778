// The leaf that reads an exception table: GCC's language-specific data area, with call sites by range (LSDA) or by number
// (SJLJ). One text reads both, for every language.
#![tactic(auto)]

mod chain;
mod header;
pub mod leaf;
mod site;

pub use header::Layout;
