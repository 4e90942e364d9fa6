//! Bytes of other processes, modules, and blocks of instructions.

use machine_stage::Step::{Ends, Holds, Makes, Says};
use machine_stage::{Stage, TWO_SLOTS, handle, handles};
use std::test::Fail;
use w32_base::Region::{Cyg, Heap, Scratch};
use w32_base::{Call, Reply, WinNo};

#[test]
fn bytes_go_to_another_process_and_back(rt: HostRuntime) -> Result<(), Fail> {
    let mut m = Box::new(rt.alloc(), Stage::open(rt.alloc(), TWO_SLOTS)?)?;
    let p = handle(4);
    let steps = [
        Makes(4, handles(&[1])),
        // the first byte of the cygheap is 1
        Says(1, Call::WriteMemory(p, Heap, 60, Cyg, 0, 4), Reply::Done),
        Holds(2, 60, 1),
        Says(1, Call::ReadMemory(p, Heap, 59, Heap, 0, 5), Reply::Done),
        Holds(1, 0, 0),
        Holds(1, 1, 1),
        Says(
            1,
            Call::WriteMemory(p, Heap, 61, Cyg, 0, 4),
            Reply::BadRange,
        ),
        Holds(2, 61, 0),
    ];
    assert_eq!(rt; m.try_steps(&steps), None);
    Ok(())
}

#[test]
fn at_most_512_bytes_are_read(rt: HostRuntime) -> Result<(), Fail> {
    let mut m = Box::new(rt.alloc(), Stage::open(rt.alloc(), TWO_SLOTS)?)?;
    let p = handle(4);
    let steps = [
        Makes(4, handles(&[1])),
        Says(
            1,
            Call::ReadMemory(p, Scratch, 0, Scratch, 0, 512),
            Reply::Done,
        ),
        Says(
            1,
            Call::ReadMemory(p, Scratch, 0, Scratch, 0, 513),
            Reply::BadRange,
        ),
        Says(
            1,
            Call::ReadMemory(p, Scratch, 1, Scratch, 0, 512),
            Reply::BadRange,
        ),
        Says(
            1,
            Call::ReadMemory(p, Heap, 0, Scratch, 0, 65),
            Reply::BadRange,
        ),
        Ends(2, Some(WinNo::new(3))),
        Says(
            1,
            Call::ReadMemory(p, Scratch, 0, Scratch, 0, 513),
            Reply::Gone,
        ),
        Says(1, Call::WriteMemory(p, Heap, 0, Cyg, 0, 4), Reply::Gone),
    ];
    assert_eq!(rt; m.try_steps(&steps), None);
    Ok(())
}

const TWO_MODULES: &[u8] =
    b"cygscript 1\nslots 2\nrows 2\nbudget 1\nmodule core 10 4\nmodule tail 12 2\noccupy 2 11\n\
      program main heap 0 stack 64\ngetpid\nschedule\nsettle\n";

#[test]
fn a_module_is_placed_once(rt: HostRuntime) -> Result<(), Fail> {
    let mut m = Box::new(rt.alloc(), Stage::open(rt.alloc(), TWO_MODULES)?)?;
    let steps = [
        Says(1, Call::Module(0), Reply::Base(10)),
        Says(1, Call::Module(1), Reply::Base(0)),
        Makes(4, handles(&[])),
        Says(2, Call::Module(0), Reply::Base(0)),
        Says(2, Call::Module(1), Reply::Base(12)),
        Says(2, Call::Module(0), Reply::Base(0)),
        Says(2, Call::Module(2), Reply::BadIndex),
        Says(0, Call::Module(0), Reply::BadIndex),
    ];
    assert_eq!(rt; m.try_steps(&steps), None);
    Ok(())
}

const THREE_INSTRUCTIONS: &[u8] = b"cygscript 1\nslots 2\nrows 2\nbudget 1\n\
      program main heap 8 stack 64\nset r0 5\nstore 3 r0\ngetpid\nschedule\nsettle\n";

#[test]
fn a_block_ends_before_a_call(rt: HostRuntime) -> Result<(), Fail> {
    let mut m = Box::new(rt.alloc(), Stage::open(rt.alloc(), THREE_INSTRUCTIONS)?)?;
    let steps = [
        Says(1, Call::Run, Reply::Ran(2)),
        Holds(1, 3, 5),
        Says(1, Call::Run, Reply::Ran(0)),
        Says(0, Call::Run, Reply::Ran(0)),
    ];
    assert_eq!(rt; m.try_steps(&steps), None);
    let made = Reply::Made(handle(4), WinNo::new(3));
    let steps = [Says(1, Call::Create(0, handles(&[])), made), Holds(2, 3, 0)];
    assert_eq!(rt; m.try_steps(&steps), None);
    Ok(())
}
