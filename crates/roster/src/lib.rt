//! The rows of the section: claiming one, the mutex over which of them are processes, looking through them, and posting
//! signals. Each is a part of the layer: one call of the modelled Win32 after another, without a change of own bytes.
//! No call takes memory.
#![tactic(auto)]

mod calls;
mod claim;
mod hold;
mod orphaned;
mod post;
mod post_one;
mod release;
mod scan;
mod signal;
mod tell_parent;
mod wake;
mod words;

pub use claim::Claim;
pub use hold::Hold;
pub use orphaned::{Member, Orphaned};
pub use post::{Post, Posted};
pub use post_one::{PostOne, PostStep};
pub use release::Let;
pub use scan::Scan;
pub use signal::Signal;
pub use tell_parent::TellParent;
pub use wake::{Poster, Wake};
