// The filed words: fields and figures of an op, the reader, and the parts of a chunk.

#![tactic(auto)]

pub mod chunk;
pub mod fields;
pub mod figures;
pub mod heads;
pub mod kinds;
pub mod limits;
pub mod lookup;
pub mod parts;
pub mod reader;
pub mod refusals;
pub mod units;
pub mod values;
mod whole;
