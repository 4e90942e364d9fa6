//! The ended processes that somebody still names.

ghost use Rattle.std.specs.Prelude.{◌≡◌, ◌≢◌, ℕ, ◌+◌, ◌<◌, ◌++◌, length, take, drop, Some, None, MatchOption};
ghost use Rattle.w32_process.specs.Table.{code_of, without_kept};

use w32_base::{Slot, WinNo};

/// A process that has ended.
#[derive(Clone, Copy, Debug)]
pub struct Kept {
    /// Its Win32 number.
    pub number: WinNo,
    /// The slot that it lived in.
    pub slot: Slot,
    /// The place of its program in the script, or none for the host.
    pub program: Option<u8>,
    /// The code that it ended with.
    pub code: u32,
}

/// The place of the ended process with this number, or none where none is kept.
pub fn place_of(kept: &[Kept], w: WinNo) -> Option<usize>
    ensures within { MatchOption result (code_of kept.now w ≡ None) (λ at. at < length kept.now) }
    ensures without { MatchOption result (code_of kept.now w ≡ None) (λ at.
        take at kept.now ++ drop (at + 1) kept.now ≡ without_kept kept.now w) }
{
    for (place, ended) in kept.iter().enumerate() {
        if ended.number == w {
            return Some(place);
        }
    }
    None
}

/// The code of the ended process with this number, or none where none is kept.
pub fn code(kept: &[Kept], w: WinNo) -> Option<u32>
    ensures { result ≡ code_of kept.now w }
{
    for ended in kept {
        if ended.number == w {
            return Some(ended.code);
        }
    }
    None
}
