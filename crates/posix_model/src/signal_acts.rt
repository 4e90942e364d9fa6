//! How signals act on a process.

ghost use Rattle.std.specs.Prelude.{◌≡◌, is_some, IfSome};
ghost use Rattle.posix_spec.specs.Conditions.{for_process, is_group_call};
ghost use Rattle.posix_spec.specs.Pending as pending;
ghost use Rattle.posix_spec.specs.SignalActs as spec;
ghost use Rattle.posix_model.specs.Gives.{Gives, GivesOrFails};
ghost use Rattle.posix_model.specs.Machine.{state_of};
ghost use Rattle.posix_model.specs.Shown.{record_of};

use crate::change::{Change, Signal};
use crate::machine::Machine;
use crate::process::{Life, Process, Progress};
use sig_sets::{ByDefault, default_of};
use std::alloc::AllocError;
use w32_base::{Acting, Action, Memory};

/// `notify P`.
pub fn notify(m: &mut Machine, p: Acting) -> bool
    ensures { Gives (for_process (state_of m.old) p (spec.notify_step (state_of m.old) p)) result m.old m.new }
{
    match m.process(p) {
        Some(process) if process.owed > 0 => {
            m.change_own(p, Change::Notify);
            true
        }
        _ => false,
    }
}

/// `discard P S`.
pub fn discard(m: &mut Machine, p: Acting, signal: u32) -> bool
    ensures { Gives (for_process (state_of m.old) p (spec.discard_step (state_of m.old) p signal)) result m.old m.new }
{
    let Some(process) = m.process(p) else {
        return false;
    };
    let Some(number) = process.deliverable_as(signal) else {
        return false;
    };
    if !process.ignores(number) {
        return false;
    }
    m.change_own(p, Change::Discard(number));
    true
}

/// `stop P S`.
pub fn stop(m: &mut Machine, p: Acting, signal: u32) -> Result<bool, Memory>
    ensures { GivesOrFails (for_process (state_of m.old) p (spec.stop_step (state_of m.old) p signal)) result m.old
        m.new }
{
    let Some(process) = m.process(p) else {
        return Ok(false);
    };
    let parent = u32::from(process.parent);
    let Some(number) = process.deliverable_as(signal) else {
        return Ok(false);
    };
    if process.is_in_group_call() {
        return Ok(false);
    }
    if !process.stops(number) {
        return Ok(false);
    }
    if !m.may_owe(parent) {
        return Err(AllocError);
    }
    m.change_own(p, Change::Stop(number));
    m.owe_more(parent);
    Ok(true)
}

impl Process {
    /// The signal, where this is the number of the one that acts next on a process that runs.
    pub fn deliverable_as(&self, signal: u32) -> Option<Signal>
        ensures which { is_some result ≡ spec.is_deliverable (record_of self.now) signal }
        ensures number { IfSome result (λ s. s.number ≡ signal) }
    {
        if !matches!(self.life, Life::Running) {
            return None;
        }
        let number = self.deliverable()?;
        if u32::from(number) == signal {
            Some(Signal { number })
        } else {
            None
        }
    }

    /// Whether a call for a group is in progress.
    pub fn is_in_group_call(&self) -> bool
        ensures { result ≡ is_group_call (record_of self.now).call }
    {
        matches!(self.progress, Progress::Group(_))
    }

    /// Whether its action and the default of the signal ignore it.
    pub fn ignores(&self, signal: Signal) -> bool
        ensures { result ≡ pending.ignores (record_of self.now) signal.number }
    {
        match (self.action(signal.number), default_of(signal.number)) {
            (Action::Ignore, _) => true,
            (Action::Default, ByDefault::Ignore | ByDefault::Continue) => true,
            _ => false,
        }
    }

    /// Whether its action and the default of the signal stop it.
    pub fn stops(&self, signal: Signal) -> bool
        ensures { result ≡ pending.stops (record_of self.now) signal.number }
    {
        matches!(
            (self.action(signal.number), default_of(signal.number)),
            (Action::Default, ByDefault::Stop)
        )
    }

    /// Whether its action and the default of the signal end it.
    pub fn ends(&self, signal: Signal) -> bool
        ensures { result ≡ pending.ends (record_of self.now) signal.number }
    {
        matches!(
            (self.action(signal.number), default_of(signal.number)),
            (Action::Default, ByDefault::End)
        )
    }
}
