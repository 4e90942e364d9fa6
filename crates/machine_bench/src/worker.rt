//! A part that loads a word and sets a result, in turn.

ghost use Rattle.std.specs.Prelude.{◌≡◌, ◌<◌};
ghost use Rattle.w32_base.specs.Part.{KeepsLengths};

use proc_vm::{next_place, set_result};
use w32_base::{
    Acting, After, Call, Event, Field, HandleList, HandleNo, Number, Own, Part, Pid, Reply, Setup,
    Slot, ThreadNo, Whole,
};

/// What a thread does next.
#[derive(Clone, Copy, Debug, PartialEq, Eq)]
pub enum Step {
    /// Loads the number of claimed rows.
    Loading,
    /// Loads the main word of row 1, and sets the result of a call.
    Setting,
    /// Waits for the end of the first layer process.
    Waiting,
}

/// The part of a thread. The main thread of a layer process loads a word and sets a result, in turn, for ever. Every
/// other thread waits.
#[derive(Clone, Copy, Debug, PartialEq, Eq, Drop)]
pub struct Worker {
    slot: Slot,
    thread: ThreadNo,
    step: Step,
}

// Sets the result of a call in the memory of a process.
fn set(own: &mut Own)
    ensures { KeepsLengths own.old own.new }
{
    if own.dat.len() == 64 && next_place(own) < u32::MAX {
        set_result(own, 0, None);
    }
}

impl Part for Worker {
    ghost use Rattle.machine_bench.specs.Worker.{worker_rank, worker_posted, WorkerGoes};
    ghost use Rattle.machine_bench.specs.WorkerLaws.{worker_lowers, worker_keeps};

    ghost rank = { worker_rank };

    ghost posted_of = { worker_posted };

    ghost goes = { λ p o s r q n a. WorkerGoes p o q n a };

    ghost lowers_rank = { λ p q o n s r a _ g keeps. worker_lowers p q o n r a g keeps };

    ghost keeps_lengths = { λ p q o n s r a _ g. worker_keeps p q o n a g };

    fn posted(&self) -> Call {
        match self.step {
            Step::Loading => Call::Load(HandleNo::new(1), 0),
            Step::Setting => Call::Load(HandleNo::new(1), 1),
            Step::Waiting => {
                let mut list = HandleList::new();
                list.push(HandleNo::new(4));
                Call::WaitAny(list)
            }
        }
    }

    fn after(&mut self, own: &mut Own, _setup: &Setup, _reply: &Reply) -> After {
        let is_main = self.slot.get() > 0 && self.thread.get() == 0;
        let (next, event) = match self.step {
            Step::Loading if is_main => (Step::Setting, None),
            Step::Loading | Step::Waiting => (Step::Waiting, None),
            Step::Setting => {
                let pid = Pid::new(2);
                let event = Event::Get(Acting::process(pid), Field::Pid, Number::unsigned(2));
                (Step::Loading, Some(event))
            }
        };
        if is_main && self.step == Step::Setting {
            set(own);
        }
        self.step = next;
        After {
            event,
            finished: false,
        }
    }
}

impl Whole for Worker {
    ghost use Rattle.std.specs.Prelude.{◌≡◌};
    ghost use Rattle.machine_bench.specs.declared.worker.Step.TheVariants.{Loading};
    ghost use Rattle.machine_bench.specs.WorkerLaws.{worker_is_never_done, worker_is_one, worker_begins, worker_stays};
    ghost use Rattle.machine_bench.specs.WorkerLaws.{worker_keeps_image, worker_ignores_image};

    ghost slot_of = { λ p. p.slot };

    ghost thread_of = { λ p. p.thread };

    ghost opening = { λ p. p.step ≡ Loading };

    ghost is_never_done = { worker_is_never_done };

    ghost is_one = { worker_is_one };

    ghost begins = { worker_begins };

    ghost keeps_slot = { λ p q o n s r a g. (worker_stays p q o n a g).0 };

    ghost keeps_thread = { λ p q o n s r a g. (worker_stays p q o n a g).1 };

    ghost keeps_image = { λ p q o n s r a other g. worker_keeps_image p q o n a other g };

    ghost ignores_image = { λ p q o n x s r a other g. worker_ignores_image p q o n x a other g };

    fn open(slot: Slot, thread: ThreadNo) -> Worker {
        Worker {
            slot,
            thread,
            step: Step::Loading,
        }
    }
}
