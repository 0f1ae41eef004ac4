// The operand-stack walk.

#![tactic(auto)]

pub mod chunk;
pub mod entry;
pub mod height;
pub mod level;
pub mod region;
