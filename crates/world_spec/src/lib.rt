//! The form of the proof of a world, as definitions and laws: what each thread's part owes, what every step keeps for
//! the other threads, and how the parts' laws make one law of a whole step. They stand in `specs/`. The trait of a part
//! that owes it is `RelyGuarantee`.
#![tactic(auto)]

mod part;

pub use part::RelyGuarantee;
