// The plain register: lists with parents and entries and no bridges, which answers every call by counting. It is the
// reference that the index is proved against; its definitions are in specs/. Here are the answers' types and the limits.
#![tactic(auto)]

pub mod answers;
pub mod limits;
