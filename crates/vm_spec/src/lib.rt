//! What the instructions of a process program do to its image, as definitions that contracts cite: the image, the
//! value of an operand, a local instruction and a block of them, what comes next, and when that is an image fault.
//! They stand in `specs/`; here are the numbers of the data region.
#![tactic(auto)]

/// How many bytes the data region has.
pub const DATA_BYTES: usize = 64;

/// Where the data region keeps the place of the next instruction.
pub const PLACE_AT: usize = 32;

/// Where the data region keeps how many bytes of stack are in use.
pub const IN_USE_AT: usize = 36;

/// Where the data region keeps the program's number.
pub const PROGRAM_AT: usize = 40;

/// How many local instructions a block has at the most.
pub const BLOCK: u16 = 256;
