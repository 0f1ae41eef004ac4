// The room for what is open in a range: a block takes two ops, so each list has half as many places as its range has ops. To clear the largest takes longer
// than to check a small range, so a small range has a small one.
// Each of the two tests picks its own: the number of places is part of a type, so no function can be handed it, no closure can take it, and a trait's method with a const parameter is refused ("cannot state a method of a trait that has a const parameter yet").
pub const FEW_OPS: usize = 64;

pub const FEW_PLACES: usize = 32;

pub const SOME_OPS: usize = 1024;

pub const SOME_PLACES: usize = 512;

// Half of 16,384, the most words of a module.
pub const MOST_PLACES: usize = 8192;
