//! Runs of whole scripts through the top call, over a source and a sink in memory.
#![tactic(auto)]

#[cfg(test)]
mod checks;
#[cfg(test)]
mod runs;
#[cfg(test)]
mod tests;
