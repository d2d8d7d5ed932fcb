// What is together: an effect with a proposition, two effects; and which effects interfere. Over tables; nothing here knows of files or of a layer's words.
#![tactic(auto)]

pub mod admit;
pub mod cut;
pub mod effects;
pub mod few;
pub mod interference;
pub mod pairs;
