//! Turns of threads.

ghost use Rattle.std.specs.Prelude.{◌≡◌, ◌<◌, true, MatchOption};
ghost use Rattle.win32_spec.specs.Call.{CallStep};
ghost use Rattle.win32_spec.specs.Named.{handles_by};
ghost use Rattle.win32_spec.specs.Ready.{may_go};
ghost use Rattle.w32_machine.specs.Contract.{IsCaller};
ghost use Rattle.w32_machine.specs.Turning.{Turns, IsNoCall, IsNextCall};

use crate::caller::Caller;
use crate::machine::Machine;
use w32_base::{Call, Reply, Slot, ThreadNo};

/// What a turn of a thread came to.
#[derive(Clone, Copy, Debug, PartialEq, Eq)]
pub enum Turned {
    /// The thread wasn't ready, and nothing changed.
    Idle,
    /// The thread's posted call was carried out, with this reply.
    Done(Reply),
}

impl Machine {
    /// One turn of a thread: where it is ready, its posted call is carried out.
    pub fn turn(&mut self, slot: Slot, thread: ThreadNo) -> Turned
        requires { self.old.win32.next < 4294967295 }
        ensures step { Turns self.old slot thread result self.new.win32 }
        ensures script { self.new.script ≡ self.old.script }
    {
        match self.next_call(slot, thread) {
            Some((by, call)) => Turned::Done(self.carry_out(&by, &call)),
            None => Turned::Idle,
        }
    }

    /// The call that a turn of a thread carries out, with the thread, or none where it isn't ready.
    pub fn next_call(&self, slot: Slot, thread: ThreadNo) -> Option<(Caller, Call)>
        ensures { MatchOption result (IsNoCall self.now slot thread)
            (λ next. IsNextCall self.now slot thread next.0 next.1) }
    {
        let Some(process) = self.processes.in_slot(slot) else {
            return None;
        };
        let by = Caller {
            slot,
            process,
            thread,
        };
        if !self.is_ready(&by) {
            return None;
        }
        Some((by, *self.posted(slot, thread)))
    }

    /// Carries out a call of a thread that is ready. A wait has something to take.
    pub fn carry_out(&mut self, by: &Caller, call: &Call) -> Reply
        requires caller { IsCaller self.old.win32 by.now }
        requires goes { may_go self.old.win32 by.now.process by.now.thread
            (handles_by self.old.win32 by.now.process) call.now ≡ true }
        requires next { self.old.win32.next < 4294967295 }
        ensures step { CallStep self.old.script self.old.win32 by.now.process by.now.thread call.now result
            self.new.win32 }
        ensures script { self.new.script ≡ self.old.script }
    {
        match *call {
            Call::Run => self.run(by),
            Call::Load(h, i) => self.load(by, h, i),
            Call::CompareExchange(h, i, old, new) => self.compare_exchange(by, h, i, old, new),
            Call::FetchAdd(h, i, n) => self.fetch_add(by, h, i, n),
            Call::Create(program, list) => self.create(by, program, &list),
            Call::Resume(h, t) => self.resume(by, h, t),
            Call::Suspend(h, t) => self.suspend(by, h, t),
            Call::Open(w) => self.open_process(by, w),
            Call::ExitCode(h) => self.exit_code(by, h),
            Call::Terminate(h, code) => self.terminate(by, h, code),
            Call::ExitSelf(code) => self.exit_self(by, code),
            Call::ReadMemory(h, region, place, own_region, own_place, count) => {
                self.read_memory(by, h, region, place, own_region, own_place, count)
            }
            Call::WriteMemory(h, region, place, own_region, own_place, count) => {
                self.write_memory(by, h, region, place, own_region, own_place, count)
            }
            Call::Module(m) => self.module(by, m),
            Call::Event(manual, signalled) => self.event(by, manual, signalled),
            Call::Set(h) => self.set(by, h),
            Call::Reset(h) => self.reset(by, h),
            Call::Mutex(owned) => self.mutex(by, owned),
            Call::Release(h) => self.release(by, h),
            Call::Pipe => self.pipe(by),
            Call::Put(h, b) => self.put(by, h, b),
            Call::Get(h) => self.get(by, h),
            Call::Dup(h, n) => self.dup(by, h, n),
            Call::Close(h) => self.close(by, h),
            Call::WaitAny(list) => self.wait(by, &list),
            Call::Tty(h, op) => self.tty(by, h, op),
        }
    }
}
