//! Processes as changes leave them.

ghost use Rattle.std.specs.Prelude.{◌≡◌, ◌<◌};
ghost use Rattle.sig_sets.specs.Shown.{bits_of};
ghost use Rattle.posix_spec.specs.Signals as signals;
ghost use Rattle.posix_spec.specs.Pending as pending;
ghost use Rattle.posix_spec.specs.Conditions as conditions;
ghost use Rattle.posix_spec.specs.Sending as sending;
ghost use Rattle.posix_spec.specs.KillSteps.{in_call_for};
ghost use Rattle.posix_spec.specs.SignalCalls.{takes_away, acting, suspended};
ghost use Rattle.posix_spec.specs.SignalActs.{stopped, notified};
ghost use Rattle.posix_spec.specs.WaitSteps.{with_look, blocked};
ghost use Rattle.posix_spec.specs.DeathSteps.{dead};
ghost use Rattle.posix_model.specs.Changes.{change_of, with_member};
ghost use Rattle.posix_model.specs.Shown.{record_of, group_call_of};
ghost use Rattle.std.specs.FinSet as set;

use crate::change::{Change, Signal};
use crate::process::{GroupCall, Life, Process, Progress, Untold};
use bitflags::Flags;
use sig_sets::SigSet;
use w32_base::{Action, Pid};

/// The signals that the generation of this one takes away first.
fn taken_by(s: u8) -> SigSet
    ensures { bits_of result ≡ signals.taken_by s }
{
    match s {
        18 => SigSet::STOP
            .union(SigSet::TSTP)
            .union(SigSet::TTIN)
            .union(SigSet::TTOU),
        19..=22 => SigSet::CONT,
        _ => SigSet::empty(),
    }
}

/// The set of one signal; of another number the empty set.
fn only(s: u8) -> SigSet
    ensures { bits_of result ≡ signals.only s }
{
    match s {
        1..=31 => SigSet::only(s),
        _ => SigSet::empty(),
    }
}

/// The pending signals after this one is generated. A number of no signal adds none.
fn generated(pending: SigSet, s: u8) -> SigSet
    ensures { bits_of result ≡ signals.generate (bits_of pending) s }
{
    pending.outside(taken_by(s)).union(only(s))
}

impl Process {
    /// One CHLD more is owed to it, where it is live.
    pub fn owe_more(&mut self)
        requires { self.old.owed < 18446744073709551615 }
        ensures { record_of self.new ≡ sending.owed_more (record_of self.old) }
    {
        if self.is_live() {
            self.owed += 1;
        }
    }

    /// Changes it.
    pub fn change(&mut self, change: Change)
        ensures { record_of self.new ≡ change_of change (record_of self.old) }
    {
        match change {
            Change::Look(c) => self.look(c),
            Change::Block => self.block(),
            Change::Report => self.untold = Untold::Nothing,
            Change::Join(g) => self.group = g,
            Change::LeadSession(p) => {
                self.group = p;
                self.session = p;
                self.terminal = false;
            }
            Change::Begin(call) => self.begin(call),
            Change::Member(call, q) => self.step(call, q),
            Change::BeginAnew => self.end_call(),
            Change::Generate(signal) => self.generate(signal),
            Change::SetMask(mask) => self.mask = mask,
            Change::SetAction(signal, action) => self.act(signal, action),
            Change::Suspend(mask) => self.suspend(mask),
            Change::Discard(signal) => self.discard(signal),
            Change::Stop(signal) => self.stop(signal),
            Change::Notify => self.notify(),
            Change::Die(status) => self.die(status),
        }
    }

    fn look(&mut self, c: Pid)
        ensures { record_of self.new ≡ with_look c (record_of self.old) }
    {
        if !matches!(self.progress, Progress::Wait) {
            self.marks.clear();
            self.progress = Progress::Wait;
        }
        self.marks.insert(c);
        self.lost = SigSet::empty();
    }

    fn block(&mut self)
        ensures { record_of self.new ≡ blocked (record_of self.old) }
    {
        self.blocked = true;
        self.go_on();
    }

    /// The call goes on.
    pub fn go_on(&mut self)
        ensures { record_of self.new ≡ conditions.call_goes_on (record_of self.old) }
    {
        self.lost = SigSet::empty();
        self.due = self.has_deliverable();
    }

    fn begin(&mut self, call: GroupCall)
        ensures { record_of self.new ≡ in_call_for (group_call_of call set.empty) (record_of self.old) }
    {
        self.marks.clear();
        self.progress = Progress::Group(call);
        self.lost = SigSet::empty();
    }

    fn step(&mut self, call: GroupCall, q: Pid)
        ensures { record_of self.new ≡ with_member (group_call_of call set.empty) q (record_of self.old) }
    {
        if !matches!(self.progress, Progress::Group(_)) {
            self.marks.clear();
            self.progress = Progress::Group(call);
        }
        self.marks.insert(q);
        self.lost = SigSet::empty();
    }

    /// Its call has ended.
    pub fn end_call(&mut self)
        ensures { record_of self.new ≡ conditions.call_ended (record_of self.old) }
    {
        self.progress = Progress::Nothing;
        self.blocked = false;
        self.lost = SigSet::empty();
        self.due = self.has_deliverable();
    }

    fn generate(&mut self, signal: u8)
        ensures { record_of self.new ≡ sending.generated signal (record_of self.old) }
    {
        if signal == 0 {
            return;
        }
        match self.life {
            Life::Zombie(_) => {}
            Life::Stopped(_) if signal == 18 => {
                self.life = Life::Running;
                self.untold = Untold::Continue;
                self.add(signal);
            }
            _ => self.add(signal),
        }
    }

    // The signal is pending, whatever its life.
    fn add(&mut self, signal: u8)
        ensures { record_of self.new ≡ sending.with_generated signal (record_of self.old) }
    {
        let gone = self.pending.intersection(taken_by(signal));
        self.lost = self.lost.union(gone);
        self.pending = generated(self.pending, signal);
    }

    fn act(&mut self, signal: Signal, action: Action)
        ensures { record_of self.new ≡ acting signal.number action (record_of self.old) }
    {
        self.actions[usize::from(signal.number) - 1] = action;
        if takes_away(action, signal.number) {
            self.discard(signal);
        }
    }

    fn suspend(&mut self, mask: SigSet)
        ensures { record_of self.new ≡ suspended (bits_of mask) (record_of self.old) }
    {
        self.saved = Some(self.mask);
        self.mask = mask;
        self.blocked = true;
        self.go_on();
    }

    /// The signal isn't pending any more.
    pub fn discard(&mut self, signal: Signal)
        ensures { record_of self.new ≡ pending.without_signal (record_of self.old) signal.number }
    {
        self.pending = self.pending.outside(SigSet::only(signal.number));
    }

    fn stop(&mut self, signal: Signal)
        ensures { record_of self.new ≡ stopped signal.number (record_of self.old) }
    {
        self.discard(signal);
        self.life = Life::Stopped(signal.number);
        self.untold = Untold::Stop;
        self.go_on();
    }

    fn notify(&mut self)
        ensures { record_of self.new ≡ notified (record_of self.old) }
    {
        self.owed = self.owed.saturating_sub(1);
        self.generate(17);
    }

    fn die(&mut self, status: u16)
        ensures { record_of self.new ≡ dead status (record_of self.old) }
    {
        self.life = Life::Zombie(status);
        self.untold = Untold::Nothing;
        self.progress = Progress::Nothing;
        self.blocked = false;
        self.due = false;
        self.lost = SigSet::empty();
        self.owed = 0;
    }
}

/// Whether the action ignores the signal, as CHLD, URG and WINCH are by default.
fn takes_away(action: Action, signal: u8) -> bool
    ensures { result ≡ takes_away action signal }
{
    match action {
        Action::Default => matches!(signal, 17 | 23 | 28),
        Action::Ignore => true,
        Action::Handler(..) => false,
    }
}
