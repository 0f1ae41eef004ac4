// The cycle walk.

#![tactic(auto)]

pub mod charge;
pub mod entry;
pub mod region;
