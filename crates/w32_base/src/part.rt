//! The interface of a part of the layer, one small program counter machine that serves a thread for a while.

ghost use Rattle.std.specs.Prelude.{◌≡◌, ◌≢◌, ◌<◌, ◌↔◌, ℕ, IsTrue, true, false, pos, negsuc};
ghost use Rattle.w32_base.specs.declared.call.Call.{Call};
ghost use Rattle.w32_base.specs.declared.call.Call.TheVariants.{Load};
ghost use Rattle.w32_base.specs.declared.call.Reply.{Reply};
ghost use Rattle.w32_base.specs.declared.own.Own.{Own};
ghost use Rattle.w32_base.specs.declared.setup.Setup.{Setup};
ghost use Rattle.w32_base.specs.declared.part.After.{After};
ghost use Rattle.w32_base.specs.Part.{may_keep_rank, KeepsLengths, KeepsImage, with_image_of};

use crate::call::{Call, Reply};
use crate::event::Event;
use crate::numbers::{Slot, ThreadNo};
use crate::own::Own;
use crate::setup::Setup;

/// What a part does after a reply, beside its change of own bytes and of itself.
#[derive(Clone, Copy, Debug, PartialEq, Eq)]
pub struct After {
    /// The event that stands in the turn, if any.
    pub event: Option<Event>,
    /// Whether the part is done.
    pub finished: bool,
}

/// A part of the layer. It sees its own process's bytes, the setup and the replies to its calls, and nothing
/// else. It is done where its rank is 0.
pub trait Part {
    /// A number that falls with each turn, but for those that `may_keep_rank` names.
    ghost rank: { Self → ℕ };

    /// The call that it posts next.
    ghost posted_of: { Self → Call };

    /// What a turn may do: from the part, the own bytes, the setup and the reply to the part, the own bytes and
    /// the answer after it.
    ghost goes: { Self → Own → Setup → Reply → Self → Own → After → Type 0 };

    /// The call that it posts next.
    fn posted(&self) -> Call
        requires { 0 < rank self.now }
        ensures { result ≡ posted_of self.now };

    /// Goes on with the reply to the posted call.
    fn after(&mut self, own: &mut Own, setup: &Setup, reply: &Reply) -> After
        requires { 0 < rank self.old }
        ensures goes { goes self.old own.old setup.now reply.now self.new own.new result }
        ensures finished { IsTrue result.finished ↔ (rank self.new ≡ 0) };

    /// A turn lowers the rank, unless it gives an event other than `look`, its call was a wait, or a
    /// compare-exchange that found another word.
    ghost lowers_rank: { (p q : Self) (o n : Own) (s : Setup) (r : Reply) (a : After) → 0 < rank p → goes p o s r q n a
        → may_keep_rank (posted_of p) r a.event ≡ false → rank q < rank p };

    /// A turn keeps the length of each region.
    ghost keeps_lengths: { (p q : Self) (o n : Own) (s : Setup) (r : Reply) (a : After) → 0 < rank p
        → goes p o s r q n a
        → KeepsLengths o n };
}

/// A part that serves one thread for its whole life.
pub trait Whole: Part {
    /// The slot whose thread it serves.
    ghost slot_of: { Self → ℕ };

    /// The thread that it serves.
    ghost thread_of: { Self → ℕ };

    /// It is as `open` answers it for its slot and its thread.
    ghost opening: { Self → Type 0 };

    /// The part of a thread that was just made.
    fn open(slot: Slot, thread: ThreadNo) -> Self
        ensures slot { slot_of result ≡ slot }
        ensures thread { thread_of result ≡ thread }
        ensures opening { opening result };

    /// It is never done.
    ghost is_never_done: { (p : Self) → 0 < Self.rank p };

    /// There is one opening part for a thread of a slot.
    ghost is_one: { (p q : Self) → opening p → opening q → slot_of p ≡ slot_of q → thread_of p ≡ thread_of q → p ≡ q };

    /// It first looks at the number of claimed rows.
    ghost begins: { (p : Self) → opening p → Self.posted_of p ≡ Load 1 0 };

    /// It serves the same thread for ever.
    ghost keeps_slot: { (p q : Self) (o n : Own) (s : Setup) (r : Reply) (a : After) → Self.goes p o s r q n a
        → slot_of q ≡ slot_of p };

    ghost keeps_thread: { (p q : Self) (o n : Own) (s : Setup) (r : Reply) (a : After) → Self.goes p o s r q n a
        → thread_of q ≡ thread_of p };

    /// Only the main thread changes data, heap and stack.
    ghost keeps_image: { (p q : Self) (o n : Own) (s : Setup) (r : Reply) (a : After) → thread_of p ≢ 0
        → Self.goes p o s r q n a → KeepsImage o n };

    /// What another thread does doesn't depend on them.
    ghost ignores_image: { (p q : Self) (o n other : Own) (s : Setup) (r : Reply) (a : After) → thread_of p ≢ 0
        → Self.goes p o s r q n a → Self.goes p (with_image_of o other) s r q (with_image_of n other) a };
}
