// Words as sets, their members, and tables of words: nothing here knows of files, layers or labels.
#![tactic(auto)]

pub mod columns;
pub mod equal;
pub mod members;
pub mod parts;
pub mod sets;
pub mod tables;
pub mod turned;
