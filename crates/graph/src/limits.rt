// The paper's limits that are no width of a set, each said once.
pub const MAX_ACTIONS: usize = 32;

pub const MAX_EFFECTS: usize = 32;

pub const MAX_DEPTH: usize = 255;
