// Does every way through a chunk give up its turn: the coverage walk.

#![tactic(auto)]

pub mod entry;
pub mod region;
