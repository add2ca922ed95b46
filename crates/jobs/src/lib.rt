// Verdicts on terms, and job counts: how many lines of a sheet can be offered at an end list.
#![tactic(auto)]

pub mod job;
pub mod judging;
pub mod lines;
pub mod verdict;
