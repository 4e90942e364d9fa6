//! Tests of the modelled Win32: the terminal as the console and threads of processes see it.
#![tactic(auto)]

#[cfg(test)]
mod terminal;
