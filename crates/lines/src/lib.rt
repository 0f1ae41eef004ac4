// One line of the sheet, and its row in a list of numbers.

#![tactic(auto)]

pub mod costs;
pub mod line;
pub mod row;
