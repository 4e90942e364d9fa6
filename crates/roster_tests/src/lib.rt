//! Tests of the parts of the layer that work on the words of rows, on a machine of the modelled Win32.
#![tactic(auto)]

#[cfg(test)]
mod parts;
