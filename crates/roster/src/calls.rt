//! The calls that the parts post, by the handles that every layer process has.

ghost use Rattle.std.specs.Prelude.{◌≡◌, ◌<◌, ◌^◌, [], ◌∷◌};
ghost use Rattle.w32_base.specs.declared.call.Call.TheVariants.{Load, CompareExchange, FetchAdd, WaitAny, Release, Set};
ghost use Rattle.roster.specs.Turns.{section_handle, roster_handle, wake_handle, rest_call};

use w32_base::{Call, HandleList, HandleNo};

const SECTION: u8 = 1;

const ROSTER: u8 = 2;

const WAKE: u8 = 4;
/// The write end of a layer process's wake pipe.
pub const PIPE: u8 = 7;

/// Looks at a word of the section.
pub fn load(place: u32) -> Call
    ensures { result ≡ Load section_handle place }
{
    Call::Load(HandleNo::new(SECTION), place)
}

/// Puts a word in the place of another one.
pub fn exchange(place: u32, old: u64, new: u64) -> Call
    ensures { result ≡ CompareExchange section_handle place old new }
{
    Call::CompareExchange(HandleNo::new(SECTION), place, old, new)
}

/// Counts one more claimed row.
pub fn count() -> Call
    ensures { result ≡ FetchAdd section_handle 0 1 }
{
    Call::FetchAdd(HandleNo::new(SECTION), 0, 1)
}

/// Waits for the roster mutex.
pub fn hold() -> Call
    ensures { result ≡ WaitAny (roster_handle ∷ []) }
{
    let mut list = HandleList::new();
    list.push(HandleNo::new(ROSTER));
    Call::WaitAny(list)
}

/// Lets the roster mutex go.
pub fn release() -> Call
    ensures { result ≡ Release roster_handle }
{
    Call::Release(HandleNo::new(ROSTER))
}

/// Wakes the own main thread.
pub fn set() -> Call
    ensures { result ≡ Set wake_handle }
{
    Call::Set(HandleNo::new(WAKE))
}

/// Has nothing to do.
pub fn rest() -> Call
    ensures { result ≡ rest_call }
{
    Call::WaitAny(HandleList::new())
}
