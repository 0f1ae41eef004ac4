// Document 01's limits by their words. 4,294,967,295 has four meanings, each with a name of its own.
// "At most 16,384 words."
pub const WORDS: usize = 16384;

// "chunk count 1..256"
pub const CHUNKS: usize = 256;

// "256 blocks in one another are walked."
pub const LEVELS: u16 = 256;

// "locals + peak over 134,217,727" is too tall.
pub const SLOTS: u32 = 134217727;

// "all sums and products stop at 4,294,967,295"
pub const CYCLE_CAP: u32 = 4294967295;

// The greatest extra: open text.
pub const OPEN_TEXT: u32 = 4294967295;

// The greatest count of a loop: what its 32 bits hold.
pub const PASSES: u32 = 4294967295;

// What stands past the end of the ops: a word that is no op.
pub const NO_OP: u32 = 4294967295;
