// The call order of a module.

#![tactic(auto)]

pub mod entry;
pub mod visit;
