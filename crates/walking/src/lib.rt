// Walks over the lists of an index as they lie in memory: lookups, offers and ranges.
#![tactic(auto)]

pub mod bounds;
mod join;
mod offer;
mod range;
mod search;
pub mod walk;
