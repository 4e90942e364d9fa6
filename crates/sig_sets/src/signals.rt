//! What becomes of a signal.

ghost use Rattle.std.specs.Prelude.{◌≡◌, ◌<◌, ◌^◌, IsTrue, if◌then◌else◌};
ghost use Rattle.posix_spec.specs.Signals.{is_signal, is_stop_signal, taken_by, generate, outside, least, clean_mask};
ghost use Rattle.posix_spec.specs.Signals.{default_of};
ghost use Rattle.sig_sets.specs.Shown.{shown_default, bits_of};

use crate::set::SigSet;
use bitflags::Flags;

/// What a signal does by default.
#[derive(Clone, Copy, Debug, PartialEq, Eq)]
pub enum ByDefault {
    /// It ends the process.
    End,
    /// Nothing.
    Ignore,
    /// It stops the process.
    Stop,
    /// It continues a stopped process.
    Continue,
}

/// The pending signals after this one is generated: a stop signal takes CONT away first, and CONT the stop signals.
pub fn generate(pending: SigSet, s: u8) -> SigSet
    requires { IsTrue (is_signal s) }
    ensures value { bits_of result ≡ generate (bits_of pending) s }
    ensures within { bits_of result < 2 ^ 31 }
{
    pending.outside(taken_by(s)).union(SigSet::only(s))
}

/// The signals that the generation of this one takes away first.
fn taken_by(s: u8) -> SigSet
    ensures { bits_of result ≡ taken_by s }
{
    match s {
        18 => SigSet::STOP
            .union(SigSet::TSTP)
            .union(SigSet::TTIN)
            .union(SigSet::TTOU),
        19..=22 => SigSet::CONT,
        _ => SigSet::empty(),
    }
}

/// The lowest pending signal that isn't in the mask, or none where there is none.
pub fn deliverable(pending: SigSet, mask: SigSet) -> Option<u8>
    ensures { result ≡ least (outside (bits_of pending) (bits_of mask)) }
{
    let open = pending.outside(mask).bits();
    if open == 0 {
        None
    } else {
        Some(open.trailing_zeros() as u8 + 1)
    }
}

/// What the signal does by default.
pub fn default_of(s: u8) -> ByDefault
    requires { IsTrue (is_signal s) }
    ensures { shown_default result ≡ default_of s }
{
    match s {
        19..=22 => ByDefault::Stop,
        17 | 23 | 28 => ByDefault::Ignore,
        18 => ByDefault::Continue,
        _ => ByDefault::End,
    }
}

/// The mask that these bits name: KILL, STOP and bit 31 are never in one.
pub fn clean_mask(bits: u32) -> SigSet
    ensures value { bits_of result ≡ clean_mask bits }
    ensures within { bits_of result < 2 ^ 31 }
{
    SigSet::from_bits_retain(bits).outside(SigSet::KILL.union(SigSet::STOP))
}
