//! Runs of a script on a world whose threads have any parts: the journal of a run, its log or the line of its refusal,
//! and the status that tells how it ended.
#![tactic(auto)]

mod lines;
mod refusal;
mod run;
mod running;
mod status;

pub use lines::numbered;
pub use refusal::{Refusal, refusal_line};
pub use run::{log, refuse, run_built, status_of};
pub use running::{Finished, run_world};
pub use status::{RunAnswer, Status, without_journal};
