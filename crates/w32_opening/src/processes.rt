//! The processes with which a run begins.

ghost use Rattle.std.specs.Prelude.{◌≡◌, IfOk};
ghost use Rattle.w32_opening.specs.Opened.{opening_numbers, IsOpenedTable};

use crate::cygheap::write_cygheap;
use crate::numbers::Numbers;
use crate::parts::{open_next, three_handles};
use script_spec::Script;
use std::alloc::Global;
use w32_base::{Memory, ObjectNo, Slot, ThreadNo};
use w32_kinds::Placements;
use w32_process::Processes;

/// The host and the first layer process, each with its handles. It fails only for want of memory.
pub fn first_processes(
    alloc: Global,
    script: &Script,
    numbers: &Numbers,
    placed: &Placements,
) -> Result<Processes, Memory>
    ensures { IfOk result (λ processes. IsOpenedTable script.now (opening_numbers numbers.now) placed.now processes) }
{
    let mut processes = Processes::open(alloc, script.setup.limits.slots)?;
    let mut host = three_handles(numbers.section, numbers.mutex, numbers.terminal);
    open_next(&mut host, numbers.process);
    *processes.handles_mut(Slot::new(0)) = host;
    let lines = ObjectNo::new(numbers.terminal.get() + 1);
    let handles = three_handles(numbers.section, numbers.mutex, lines);
    let program = script.setup.programs.first();
    // slot 1 is empty
    let Ok((slot, _)) = processes.create(0, program, handles) else {
        unreachable!()
    };
    let _ = processes.resume(slot, ThreadNo::new(0));
    write_cygheap(&mut processes.own_mut(slot).cyg, placed);
    Ok(processes)
}
