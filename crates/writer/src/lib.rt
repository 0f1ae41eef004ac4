// The writer: the words of a module that an editor holds as four lists of numbers.

#![tactic(auto)]

pub mod entry;
mod fits;
pub mod lent;
mod put;
mod size;
