//! What a list of events is, and what the text of a script with a log is.
#![tactic(auto)]

#[cfg(test)]
mod checks;
