// The file and label crate: the problem file, what turns a call away, and where the words of a graph lie.
#![tactic(auto)]

// What the calls' answers are made of.
pub mod refusal;

// For the other crates of this repository, which meet what each function asks.
pub mod checks;
mod equal;
pub mod file;
pub mod format;
pub mod layout;
pub mod limits;
pub mod read;
pub mod view;
