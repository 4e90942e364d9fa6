//! Why a log couldn't be read.

ghost use Rattle.std.specs.Prelude.{◌≡◌};
ghost use Rattle.log_text.specs.declared.error.LogError.TheVariants.{Memory};

use std::alloc::{AllocError, AllocFailed};
use thiserror::Error;

/// Why a log couldn't be read.
#[derive(Clone, Copy, Debug, PartialEq, Eq, Error)]
pub enum LogError {
    /// The bytes are no text of view `events`.
    #[error("line {line} of the log")]
    Fault {
        /// The first line that isn't in such a text, from 1; the line after the last where the text's end is wanting.
        line: u32,
    },
    /// Memory ran out.
    #[error("memory ran out")]
    Memory,
}

impl From<AllocError> for LogError {
    ghost from_gives = { λ _ e. e ≡ Memory };

    fn from(_e: AllocError) -> LogError {
        LogError::Memory
    }
}

impl<T: Drop> From<AllocFailed<T>> for LogError {
    ghost from_gives = { λ _ e. e ≡ Memory };

    fn from(_e: AllocFailed<T>) -> LogError {
        LogError::Memory
    }
}
