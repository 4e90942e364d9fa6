//! Sources and sinks, the texts of scripts, and the texts of logs, both ways.
#![tactic(auto)]

#[cfg(test)]
mod logs;
#[cfg(test)]
mod logs_read;
#[cfg(test)]
mod scripts;
#[cfg(test)]
mod sources;
