//! Why a script couldn't be read.

ghost use Rattle.std.specs.Prelude.{◌≡◌};
ghost use Rattle.cyg_script.specs.declared.error.ScriptError.TheVariants.{Memory};

use script_spec::Kind;
use std::alloc::{AllocError, AllocFailed};
use thiserror::Error;

/// Why a script couldn't be read.
#[derive(Clone, Copy, Debug, PartialEq, Eq, Error)]
pub enum ScriptError {
    /// The text is no script: its first fault.
    #[error("line {line} of the script: {kind:?}")]
    Fault {
        /// The line, from 1; 0 for a text that is too long.
        line: u32,
        /// What is wrong with it.
        kind: Kind,
    },
    /// Memory ran out.
    #[error("memory ran out")]
    Memory,
}

impl From<AllocError> for ScriptError {
    ghost from_gives = { λ _ e. e ≡ Memory };

    fn from(_e: AllocError) -> ScriptError {
        ScriptError::Memory
    }
}

impl<T: Drop> From<AllocFailed<T>> for ScriptError {
    ghost from_gives = { λ _ e. e ≡ Memory };

    fn from(_e: AllocFailed<T>) -> ScriptError {
        ScriptError::Memory
    }
}
