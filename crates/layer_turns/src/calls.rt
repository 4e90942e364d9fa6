//! The calls by handles that every layer process has.

ghost use Rattle.std.specs.Prelude.{◌≡◌, ◌<◌, ◌^◌, []};
ghost use Rattle.w32_base.specs.declared.call.Call.TheVariants.{Load, CompareExchange};
ghost use Rattle.roster.specs.Turns.{section_handle, rest_call};

use w32_base::{Call, HandleList, HandleNo};

const SECTION: u8 = 1;

/// Looks at a word of the section.
pub fn load(place: u32) -> Call
    ensures { result ≡ Load section_handle place }
{
    Call::Load(HandleNo::new(SECTION), place)
}

/// Puts a word in the place of another one.
pub fn exchange(place: u32, old: u64, new: u64) -> Call
    ensures { result ≡ CompareExchange section_handle place old new }
{
    Call::CompareExchange(HandleNo::new(SECTION), place, old, new)
}

/// Has nothing to do.
pub fn rest() -> Call
    ensures { result ≡ rest_call }
{
    Call::WaitAny(HandleList::new())
}
