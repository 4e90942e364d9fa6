//! Tests of the modelled Win32: words, events, mutexes and pipes as threads of several processes see them.
#![tactic(auto)]

#[cfg(test)]
mod objects;
