// The module sheet.

#![tactic(auto)]

pub mod module;
