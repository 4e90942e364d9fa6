//! The parts of the layer, and the bytes of a cygheap, with replies that are made by hand.
#![tactic(auto)]

#[cfg(test)]
mod actors;
#[cfg(test)]
mod exits;
#[cfg(test)]
mod heaps;
#[cfg(test)]
mod kills;
#[cfg(test)]
mod rows;
