//! The line discipline of the terminal (POSIX.1-2017, XBD 11), as definitions that contracts cite: what a key does, and
//! what a read takes. Both machines, the modelled Win32 and POSIX, cite it. The definitions stand in `specs/`; here are
//! the numbers that they name.
#![tactic(auto)]

/// The key that interrupts.
pub const INTR: u8 = 0x03;

/// The key that ends a line without a byte of its own.
pub const EOF: u8 = 0x04;

/// The key that ends a line.
pub const NL: u8 = 0x0a;

/// The key that drops the current line.
pub const KILL: u8 = 0x15;

/// The key that suspends.
pub const SUSP: u8 = 0x1a;

/// The key that quits.
pub const QUIT: u8 = 0x1c;

/// The key that drops the last byte of the current line.
pub const ERASE: u8 = 0x7f;

/// How many bytes the current line may have before its end.
pub const MOST_LINE: usize = 254;

/// How many done lines the terminal keeps.
pub const MOST_LINES: usize = 16;
