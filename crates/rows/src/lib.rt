// Rows: the walked range of a chunk, forward targets, the row check, and the test of breaks.

#![tactic(auto)]

pub mod block;
pub mod check;
pub mod range;
pub mod room;
pub mod stray;
