// What a server or a program keeps of a tree file: its lists and entries in memory of their own, and an index over them.
#![tactic(auto)]

pub mod entry_points;
mod fillers;
pub mod refusal;
pub mod room;
pub mod tree;
