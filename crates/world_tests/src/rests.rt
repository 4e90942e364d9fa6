//! A part that rests.

ghost use Rattle.std.specs.Prelude.{◌≡◌, ◌<◌};

use std::marker::Model;
use w32_base::{After, Call, HandleList, HandleNo, Own, Part, Reply, Setup, Slot, ThreadNo, Whole};
use world_spec::RelyGuarantee;

/// The part of a thread that has nothing to do: it looks at the number of claimed rows, as every thread does first, and
/// then rests for ever, in a wait that is never ready.
#[derive(Drop)]
pub struct Rests {
    slot: Slot,
    thread: ThreadNo,
    rests: bool,
}

impl Model for Rests {
    ghost use Rattle.world_spec.specs.Resting.{Resting};

    ghost Value = { Resting };

    ghost view = { λ p. record { slot = p.slot; thread = p.thread; rests = p.rests } };
}

impl Part for Rests {
    ghost use Rattle.world_spec.specs.Resting.{resting_posted, RestingGoes};
    ghost use Rattle.world_tests.specs.RestsLaws.{resting_rank, resting_lowers};
    ghost use Rattle.world_spec.specs.RestingWorld.{resting_lengths};

    ghost rank = { resting_rank };

    ghost posted_of = { resting_posted };

    ghost goes = { λ p o s r q n a. RestingGoes p o s r q n a };

    ghost lowers_rank = { λ p q o n s r a _ g keeps. resting_lowers p q o n s r a g keeps };

    ghost keeps_lengths = { λ p q o n s r a _ g. resting_lengths p q o n s r a g };

    fn posted(&self) -> Call {
        if self.rests {
            Call::WaitAny(HandleList::new())
        } else {
            Call::Load(HandleNo::new(1), 0)
        }
    }

    fn after(&mut self, _own: &mut Own, _setup: &Setup, _reply: &Reply) -> After {
        self.rests = true;
        After {
            event: None,
            finished: false,
        }
    }
}

impl Whole for Rests {
    ghost use Rattle.world_spec.specs.Resting.{IsRestingOpening};
    ghost use Rattle.world_spec.specs.RestingWorld.{resting_slot, resting_thread, resting_begins};
    ghost use Rattle.world_tests.specs.RestsLaws.{resting_goes_on, one_resting, resting_image, resting_ignores};
    ghost use Rattle.world_tests.specs.RestsLaws.{resting_stays};

    ghost slot_of = { resting_slot };

    ghost thread_of = { resting_thread };

    ghost opening = { IsRestingOpening };

    ghost is_never_done = { resting_goes_on };

    ghost is_one = { one_resting };

    ghost begins = { resting_begins };

    ghost keeps_slot = { λ p q o n s r a g. (resting_stays p q o n s r a g).0 };

    ghost keeps_thread = { λ p q o n s r a g. (resting_stays p q o n s r a g).1 };

    ghost keeps_image = { λ p q o n s r a _ g. resting_image p q o n s r a g };

    ghost ignores_image = { λ p q o n x s r a _ g. resting_ignores p q o n x s r a g };

    fn open(slot: Slot, thread: ThreadNo) -> Rests {
        Rests {
            slot,
            thread,
            rests: false,
        }
    }
}

impl RelyGuarantee for Rests {
    ghost use Rattle.world_spec.specs.Resting.{RestingClause};
    ghost use Rattle.world_spec.specs.RestingLaws.{resting_owes};
    ghost use Rattle.world_tests.specs.RestsLaws.{resting_tells};

    ghost serves = { λ script. Unit {0} };

    ghost clause = { λ script. RestingClause };

    ghost owes = { λ script valid served. resting_owes script };

    ghost tells = { λ script served past now w p held q o n r a g. resting_tells p q o n script.setup r a g };
}
