// Tree files: a tree of term lists as bytes, and loading it into memory.
#![tactic(auto)]

pub mod entry_points;
mod field;
mod fields;
mod item;
pub mod load;
pub mod loaded;
mod loader;
mod stage;
