//! Tests of the modelled Win32: processes and memory as threads of several processes see them.
#![tactic(auto)]

#[cfg(test)]
mod memory;
#[cfg(test)]
mod processes;
