//! Mutexes.

ghost use Rattle.std.specs.Prelude.{◌≡◌, ◌≤◌, ◌↔◌, IsTrue, IsErr, OnOk, OnErr, false};
ghost use Rattle.win32_spec.specs.Objects.{Ownership, is_owner, is_free_for, is_abandoned, left_by};
ghost use Rattle.w32_sync.specs.Owner.{ownership_at_first};

use std::marker::Model;
use w32_base::{ThreadNo, WinNo};

/// Who owns a mutex.
#[derive(Clone, Copy, Debug, PartialEq, Eq)]
enum Owner {
    /// Nobody.
    Free,
    /// A thread of a process.
    Owned(WinNo, ThreadNo),
    /// Nobody, since its owner's process ended.
    Abandoned,
}

impl Owner {
    ghost use Rattle.w32_sync.specs.Owner.{ownership_of};

    /// Who owns the mutex after a process has ended.
    fn left_by(self, w: WinNo) -> Owner
        ensures { ownership_of result ≡ left_by (ownership_of self) w }
    {
        match self {
            Owner::Owned(process, _) if process.get() == w.get() => Owner::Abandoned,
            owner => owner,
        }
    }
}

/// A mutex, which one thread of one process may own.
#[derive(Debug, Drop)]
pub struct WinMutex {
    owner: Owner,
}

impl Model for WinMutex {
    ghost use Rattle.win32_spec.specs.Objects.{Ownership};

    ghost Value = { Ownership };

    ghost use Rattle.w32_sync.specs.Owner.{ownership_of};

    ghost view = { λ m. ownership_of m.owner };
}

/// How a wait for a mutex ended. In both cases the waiter owns it.
#[derive(Clone, Copy, Debug, PartialEq, Eq)]
pub enum Took {
    /// It was free, or the waiter's already.
    Owned,
    /// Its owner's process had ended.
    Abandoned,
}

/// The mutex isn't owned by the thread that releases it.
#[derive(Clone, Copy, Debug, PartialEq, Eq)]
pub struct NotOwner;

impl WinMutex {
    /// A mutex that this thread of this process owns, or a free one.
    pub fn new(owner: Option<(WinNo, ThreadNo)>) -> WinMutex
        ensures { result ≡ ownership_at_first owner }
    {
        let owner = match owner {
            Some((process, thread)) => Owner::Owned(process, thread),
            None => Owner::Free,
        };
        WinMutex { owner }
    }

    /// Whether a wait of this thread for it ends: it is free, abandoned or the thread's own.
    pub fn signalled(&self, by: (WinNo, ThreadNo)) -> bool
        ensures { result ≡ is_free_for self.now by.0 by.1 }
    {
        match self.owner {
            Owner::Owned(process, thread) => process == by.0 && thread == by.1,
            Owner::Free | Owner::Abandoned => true,
        }
    }

    /// A process has ended, which abandons the mutex where one of its threads owns it.
    pub fn ended(&mut self, w: WinNo)
        ensures { self.new ≡ left_by self.old w }
    {
        self.owner = self.owner.left_by(w);
    }

    /// Ends a wait of this thread for it: the thread owns it from now on. A taking by its owner changes nothing.
    pub fn take(&mut self, by: (WinNo, ThreadNo)) -> Took
        requires { IsTrue (is_free_for self.old by.0 by.1) }
        ensures owned { self.new ≡ Ownership.Owned by.0 by.1 }
        ensures abandoned { (result ≡ Took.Abandoned) ↔ IsTrue (is_abandoned self.old) }
    {
        let took = match self.owner {
            Owner::Abandoned => Took::Abandoned,
            Owner::Free | Owner::Owned(_, _) => Took::Owned,
        };
        self.owner = Owner::Owned(by.0, by.1);
        took
    }

    /// Frees it, however often its owner took it.
    ///
    /// # Errors
    ///
    /// Another thread owns it, or none; it stays as it was.
    pub fn release(&mut self, by: (WinNo, ThreadNo)) -> Result<(), NotOwner>
        ensures refused { IsErr result ↔ (is_owner self.old by.0 by.1 ≡ false) }
        ensures freed { OnOk result (self.new ≡ Ownership.Free) }
        ensures unchanged { OnErr result (self.new ≡ self.old) }
    {
        if self.owner != Owner::Owned(by.0, by.1) {
            return Err(NotOwner);
        }
        self.owner = Owner::Free;
        Ok(())
    }
}

#[cfg(test)]
mod tests {
    use super::*;

    fn thread(process: u32, number: u8) -> (WinNo, ThreadNo)
        requires { number ≤ 2 }
        ensures { result ≡ (process, number) }
    {
        (WinNo::new(process), ThreadNo::new(number))
    }

    #[test]
    fn one_thread_owns_it_until_it_releases_it(rt: HostRuntime) {
        let mut mutex = WinMutex::new(None);
        assert!(rt; mutex.signalled(thread(2, 0)));
        assert_eq!(rt; mutex.take(thread(2, 0)), Took::Owned);
        assert!(rt; !mutex.signalled(thread(2, 1)));
        assert!(rt; mutex.signalled(thread(2, 0)));
        assert_eq!(rt; mutex.take(thread(2, 0)), Took::Owned);
        assert_eq!(rt; mutex.release(thread(2, 1)), Err(NotOwner));
        assert_eq!(rt; mutex.release(thread(2, 0)), Ok(()));
        assert_eq!(rt; mutex.release(thread(2, 0)), Err(NotOwner));
    }

    #[test]
    fn the_end_of_its_owner_abandons_it(rt: HostRuntime) {
        let mut mutex = WinMutex::new(Some(thread(2, 1)));
        mutex.ended(WinNo::new(3));
        assert!(rt; !mutex.signalled(thread(3, 0)));
        mutex.ended(WinNo::new(2));
        assert_eq!(rt; mutex.release(thread(2, 1)), Err(NotOwner));
        assert!(rt; mutex.signalled(thread(3, 0)));
        assert_eq!(rt; mutex.take(thread(3, 0)), Took::Abandoned);
        assert_eq!(rt; mutex.release(thread(3, 0)), Ok(()));
    }
}
