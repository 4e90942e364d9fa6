//! The objects with which a run begins.

ghost use Rattle.std.specs.Prelude.{◌≡◌, ℕ, ◌+◌, IfOk};
ghost use Rattle.w32_handles.specs.Table.{object_at};
ghost use Rattle.w32_opening.specs.Opened.{kept_shown, opening_at};

use crate::numbers::Numbers;
use crate::parts::first_words;
use std::alloc::{AllocError, Global};
use tty_line::Tty;
use w32_base::{Memory, Slot, WinNo};
use w32_handles::Objects;
use w32_kinds::Kind;
use w32_sync::WinMutex;

/// How many objects there may be: one for each handle of 65 slots with 64 handles each.
const MOST_OBJECTS: usize = 4160;

/// The four objects, each with a holder for each handle on it. It fails only for want of memory.
pub fn first_objects(alloc: Global) -> Result<(Objects<Kind>, Numbers), Memory>
    ensures objects { IfOk result (λ made. (o : ℕ) → kept_shown (object_at made.0 o) ≡ opening_at made.1 o) }
    ensures spare { IfOk result (λ made. made.0.spare + 4 ≡ 4160) }
{
    let words = first_words(alloc)?;
    let console = Box::new(alloc, Tty::new())?;
    let mut objects = Objects::with_room(alloc, MOST_OBJECTS)?;
    let section = objects.add(Kind::Section(words));
    let mutex = objects.add(Kind::Mutex(WinMutex::new(None)));
    let terminal = objects.add(Kind::Terminal(console));
    let process = objects.add(Kind::Process(WinNo::new(2), Slot::new(1)));
    objects.hold(section);
    objects.hold(mutex);
    objects.hold(terminal);
    // A table whose places were all free gives them from the lowest one up, so this never fails.
    if section < mutex && mutex < terminal && terminal < process {
        Ok((
            objects,
            Numbers {
                section,
                mutex,
                terminal,
                process,
            },
        ))
    } else {
        Err(AllocError)
    }
}
