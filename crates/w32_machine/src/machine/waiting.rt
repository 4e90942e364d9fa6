//! The call that waits.

ghost use Rattle.std.specs.Prelude.{◌≡◌, true};
ghost use Rattle.win32_spec.specs.HandleCalls.{WaitStep, TakesObject};
ghost use Rattle.win32_spec.specs.Named.{handles_by, named_by, has_absent};
ghost use Rattle.win32_spec.specs.Ready.{is_handle_signalled, is_some_signalled};
ghost use Rattle.w32_machine.specs.Contract.{IsCaller};
ghost use Rattle.w32_machine.specs.Waited.{IsFirstSignalled};

use crate::caller::Caller;
use crate::machine::Machine;
use w32_base::{HandleList, HandleNo, Reply};

impl Machine {
    // `wait`
    pub(super) fn wait(&mut self, by: &Caller, list: &HandleList) -> Reply
        requires caller { IsCaller self.old.win32 by.now }
        requires signalled { is_some_signalled self.old.win32 by.now.process by.now.thread
            (handles_by self.old.win32 by.now.process) list.now ≡ true }
        ensures step { WaitStep self.old.win32 by.now.process by.now.thread list.now result self.new.win32 }
        ensures script { self.new.script ≡ self.old.script }
    {
        if self.has_absent(by, list) {
            return Reply::BadHandle;
        }
        match self.first_signalled(by, list) {
            Some(at) => self.take(by, at.1, at.0),
            None => unreachable!(),
        }
    }

    // Ends a wait of the caller for what a handle names, which stands at this place of the list.
    fn take(&mut self, by: &Caller, h: HandleNo, place: u8) -> Reply
        requires caller { IsCaller self.old.win32 by.now }
        requires signalled { is_handle_signalled self.old.win32 by.now.process by.now.thread
            (named_by self.old.win32 by.now.process h) ≡ true }
        ensures taken { TakesObject self.old.win32 by.now.process by.now.thread h place result self.new.win32 }
        ensures script { self.new.script ≡ self.old.script }
    {
        let (process, thread) = (by.process, by.thread);
        match self.named(by, h) {
            Some(o) => self.objects.get_mut(o).take(process, thread, place),
            None => unreachable!(),
        }
    }

    // Whether one of these handles is absent.
    pub(super) fn has_absent(&self, by: &Caller, list: &HandleList) -> bool
        requires { IsCaller self.now.win32 by.now }
        ensures { result ≡ has_absent (handles_by self.now.win32 by.now.process) list.now }
    {
        for place in 0..list.len() {
            if let Some(h) = list.get(place) {
                if self.named(by, h).is_none() {
                    return true;
                }
            }
        }
        false
    }

    // The first place of the list whose handle is signalled for the caller, with the handle.
    fn first_signalled(&self, by: &Caller, list: &HandleList) -> Option<(u8, HandleNo)>
        requires { IsCaller self.now.win32 by.now }
        ensures { IsFirstSignalled self.now.win32 by.now.process by.now.thread
            (handles_by self.now.win32 by.now.process) list.now result }
    {
        for place in 0..list.len() {
            if let Some(h) = list.get(place) {
                if self.is_signalled(by, h) {
                    return Some((place as u8, h));
                }
            }
        }
        None
    }
}
