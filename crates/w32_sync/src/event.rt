//! Events.

ghost use Rattle.std.specs.Prelude.{◌≡◌, IsTrue};
ghost use Rattle.win32_spec.specs.Objects.{event_set, event_reset, event_taken};

use std::marker::Model;

/// An event. A wait that it ends resets it, unless it is manual.
#[derive(Debug, Drop)]
pub struct WinEvent {
    manual: bool,
    signalled: bool,
}

impl Model for WinEvent {
    ghost use Rattle.win32_spec.specs.Objects.{EventState};

    ghost Value = { EventState };

    ghost view = { λ e. record { manual = e.manual; signalled = e.signalled } };
}

impl WinEvent {
    /// An event that is manual or resets itself, and is set or not.
    pub fn new(manual: bool, set: bool) -> WinEvent
        ensures { result ≡ record { manual = manual; signalled = set } }
    {
        WinEvent {
            manual,
            signalled: set,
        }
    }

    /// Sets it.
    pub fn set(&mut self)
        ensures { self.new ≡ event_set self.old }
    {
        self.signalled = true;
    }

    /// Resets it.
    pub fn reset(&mut self)
        ensures { self.new ≡ event_reset self.old }
    {
        self.signalled = false;
    }

    /// Whether a wait for it ends.
    pub fn signalled(&self) -> bool
        ensures { result ≡ self.now.signalled }
    {
        self.signalled
    }

    /// Ends a wait for it, which resets it unless it is manual.
    pub fn take(&mut self)
        requires { IsTrue self.old.signalled }
        ensures { self.new ≡ event_taken self.old }
    {
        self.signalled = self.manual;
    }
}

#[cfg(test)]
mod tests {
    use super::*;

    #[test]
    fn waits_reset_an_event_that_is_not_manual(rt: HostRuntime) {
        let mut event = WinEvent::new(false, true);
        assert!(rt; event.signalled());
        event.take();
        assert!(rt; !event.signalled());
        event.set();
        event.reset();
        assert!(rt; !event.signalled());
    }

    #[test]
    fn waits_leave_a_manual_event_set(rt: HostRuntime) {
        let mut event = WinEvent::new(true, false);
        event.set();
        event.take();
        assert!(rt; event.signalled());
    }
}
