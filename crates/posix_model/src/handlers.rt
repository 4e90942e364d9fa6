//! The handlers of a process's signals: which signals have one, and how one begins and returns.

ghost use Rattle.std.specs.Prelude.{◌≡◌, ◌≤◌, true};
ghost use Rattle.vm_spec.specs.Frames as frames;
ghost use Rattle.sig_sets.specs.Shown.{bits_of};
ghost use Rattle.posix_spec.specs.Pending as pending;
ghost use Rattle.posix_spec.specs.SignalActs.{interrupted_image, mask_to_return, in_handler};
ghost use Rattle.posix_spec.specs.SignalCalls.{returned};
ghost use Rattle.posix_model.specs.Handled.{is_handled, HasFrame};
ghost use Rattle.posix_model.specs.Shown.{record_of};

use crate::change::Signal;
use crate::numbers::error_word;
use crate::process::Process;
use crate::results::finish;
use crate::signal_calls::word;
use bitflags::Flags;
use proc_vm::{pop_frame, push_frame, stack_in_use};
use sig_sets::{SigSet, clean_mask};
use w32_base::{Action, Errno};

/// How many bytes the frame of a handler has.
const FRAME_BYTES: usize = 40;

/// The beginning of a handler: its signal and its place, and whether it interrupts a blocked call.
#[derive(Clone, Copy, Debug)]
pub struct Handling {
    /// The signal.
    pub signal: Signal,
    /// The place of the handler.
    pub target: u16,
    /// Whether it interrupts a blocked call.
    pub interrupted: bool,
}

impl Process {
    /// Whether the frame of a handler has room on the stack.
    pub fn has_frame_room(&self) -> bool
        ensures { result ≡ frames.has_frame_room (record_of self.now).image }
    {
        stack_in_use(&self.own) as usize + FRAME_BYTES <= self.own.stack.len()
    }

    /// Whether a signal outside the mask that has a handler is pending, or was, before a generation took it away.
    pub fn awaits_handler(&self) -> bool
        ensures { result ≡ pending.awaits_handler (record_of self.now) }
    {
        self.has_handled(self.pending.union(self.lost).outside(self.mask))
    }

    /// Whether a signal of the set has a handler.
    fn has_handled(&self, set: SigSet) -> bool
        ensures { result ≡ pending.has_handled (record_of self.now) (bits_of set) }
    {
        for signal in 1..32 {
            if self.handles(set, signal) {
                return true;
            }
        }
        false
    }

    /// Whether the signal is in the set, and has a handler.
    fn handles(&self, set: SigSet, signal: u8) -> bool
        requires { (1 ≤ signal) × (signal ≤ 31) }
        ensures { result ≡ is_handled (record_of self.now) (bits_of set) signal }
    {
        set.has(signal) && matches!(self.action(signal), Action::Handler(..))
    }

    /// A handler returns: its frame is popped, and the mask comes back from it.
    pub fn leave_handler(&mut self)
        requires { HasFrame (record_of self.old) }
        ensures { record_of self.new ≡ returned (record_of self.old) }
    {
        let Ok(mask) = pop_frame(&mut self.own) else {
            unreachable!()
        };
        self.mask = clean_mask(mask);
        self.end_call();
    }
    /// A handler begins: its frame is pushed, and its signal isn't pending any more and is in the mask. A call that it
    /// interrupts has its result, and a suspend has ended.
    pub fn enter_handler(&mut self, handling: Handling)
        requires { frames.has_frame_room (record_of self.old).image ≡ true }
        ensures { record_of self.new ≡
            in_handler handling.interrupted handling.signal.number handling.target (record_of self.old) }
    {
        let mask = self.mask_to_return();
        self.interrupt(handling.interrupted);
        self.push(mask, handling.target);
        self.discard(handling.signal);
        self.mask = self.mask.union(SigSet::only(handling.signal.number));
        self.saved = None;
        self.end_call();
    }

    /// The mask that comes back after a handler, which in a suspend is the one from before it.
    fn mask_to_return(&self) -> SigSet
        ensures { bits_of result ≡ mask_to_return (record_of self.now) }
    {
        self.saved.unwrap_or(self.mask)
    }

    /// A call that is interrupted has its result.
    fn interrupt(&mut self, interrupted: bool)
        ensures { record_of self.new ≡
            record (record_of self.old) { image = interrupted_image interrupted (record_of self.old).image } }
    {
        if interrupted {
            finish(&mut self.own, error_word(Errno::EINTR), None);
        }
    }

    /// Pushes the frame of a handler, for which there is room.
    fn push(&mut self, mask: SigSet, target: u16)
        requires { frames.has_frame_room (record_of self.old).image ≡ true }
        ensures { record_of self.new ≡
            record (record_of self.old) { image = frames.with_frame (record_of self.old).image (bits_of mask) target } }
    {
        let Ok(()) = push_frame(&mut self.own, word(mask), target) else {
            unreachable!()
        };
    }
}
