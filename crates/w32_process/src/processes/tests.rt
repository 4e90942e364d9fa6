use super::*;
use std::test::Fail;
use w32_base::{Code, Instr, Name, ObjectNo};

fn program(alloc: Global) -> Result<Program, Fail> {
    let code = Code::from_vec(vec![in alloc; Instr::Pause]?);
    let name = Name::try_new(b"main").ok_or("no name")?;
    Ok(Program {
        name,
        heap: 4,
        stack: 64,
        code,
    })
}

#[test]
fn makes_a_process_in_the_lowest_slot(rt: HostRuntime) -> Result<(), Fail> {
    let alloc = rt.alloc();
    let program = program(alloc)?;
    let mut processes = Processes::open(alloc, 2)?;
    assert_eq!(rt; processes.in_slot(Slot::new(0)), Some(WinNo::new(1)));
    assert_eq!(rt; processes.in_slot(Slot::new(1)), None);
    assert_eq!(rt;
        processes.create(7, &program, Handles::new()),
        Ok((Slot::new(1), WinNo::new(2)))
    );
    assert_eq!(rt;
        processes.create(0, &program, Handles::new()),
        Ok((Slot::new(2), WinNo::new(3)))
    );
    assert_eq!(rt; processes.create(0, &program, Handles::new()), Err(NoSlot));
    let own = processes.own(Slot::new(1));
    assert_eq!(rt; own.dat.get(40), Some(7));
    assert_eq!(rt; own.heap.len(), 4);
    assert_eq!(rt; own.stack.len(), 64);
    Ok(())
}

#[test]
fn a_slot_is_used_again_after_an_end(rt: HostRuntime) -> Result<(), Fail> {
    let alloc = rt.alloc();
    let program = program(alloc)?;
    let mut processes = Processes::open(alloc, 1)?;
    let _ = processes.create(0, &program, Handles::new());
    let _ = processes.handles_mut(Slot::new(1)).open(ObjectNo::new(6));
    let own = processes.own_mut(Slot::new(1));
    if own.heap.len() >= 2 {
        own.heap.set(1, 9);
    }
    processes.end(Slot::new(1), 65536);
    assert_eq!(rt; processes.in_slot(Slot::new(1)), None);
    assert_eq!(rt; processes.exit_code(WinNo::new(2)), Some(65536));
    assert_eq!(rt;
        processes.create(0, &program, Handles::new()),
        Ok((Slot::new(1), WinNo::new(3)))
    );
    assert_eq!(rt;
        processes.handles(Slot::new(1)).count_of(ObjectNo::new(6)),
        0
    );
    assert_eq!(rt; processes.own(Slot::new(1)).heap.get(1), Some(0));
    Ok(())
}

#[test]
fn counts_stay_from_0_to_100(rt: HostRuntime) -> Result<(), Fail> {
    let alloc = rt.alloc();
    let mut processes = Processes::open(alloc, 1)?;
    let host = Slot::new(0);
    let thread = ThreadNo::new(1);
    assert_eq!(rt; processes.resume(host, thread), 0);
    assert_eq!(rt; processes.suspend(host, thread), 0);
    assert_eq!(rt; processes.count(host, thread), Some(1));
    assert_eq!(rt; processes.count(host, ThreadNo::new(2)), None);
    assert_eq!(rt; processes.count(Slot::new(1), thread), None);
    assert_eq!(rt; processes.resume(host, thread), 1);
    Ok(())
}
