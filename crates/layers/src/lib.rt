// One step of the graph, from a proposition layer to the next, over tables of what is together. Nothing here knows of files.
#![tactic(auto)]

pub mod start;
pub mod step;
mod write;
