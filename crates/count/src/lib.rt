// The loop count: how often a counted loop passes its header.

#![tactic(auto)]

pub mod bound;
pub mod entry;
pub mod search;
pub mod sure;
