//! Worlds through their directives.

ghost use Rattle.std.specs.Prelude.{IfOk};
ghost use Rattle.script_spec.specs.Validity.{IsValid};

use super::*;
use cyg_script::{Script, read_script};
use layer_world::World;
use std::alloc::Global;
use std::test::Fail;
use w32_base::{Directive, End, Outcome, Reply, RowNo, Slot, ThreadNo, WinNo};

/// A script of one program, whose schedule follows.
const FRONT: &[u8] =
    b"cygscript 1\nslots 2\nrows 2\nbudget 6\nprogram main heap 0 stack 64\ngetpid\nschedule\n";

fn script(alloc: Global, schedule: &[u8]) -> Result<Script, Fail>
    ensures { IfOk result IsValid }
{
    let mut text = Vec::new(alloc);
    text.extend_from_slice(FRONT)?;
    text.extend_from_slice(schedule)?;
    Ok(read_script(alloc, text.as_slice())?)
}

#[test]
fn each_thread_that_runs_looks_once_and_then_the_run_is_quiet(rt: HostRuntime) -> Result<(), Fail> {
    let script = script(rt.alloc(), b"settle\n")?;
    let mut world = Box::new(rt.alloc(), World::<Rests>::open(rt.alloc(), &script)?)?;
    assert_eq!(rt; world.spare(), 6);
    assert!(rt; world.occupied(Slot::new(1)));
    assert!(rt; !world.occupied(Slot::new(2)));
    let end = world.run_script(&script);
    assert_eq!(rt; end, End::Quiet);
    assert!(rt; world.quiet());
    // both threads of the host, and the main thread of the process, whose other threads are suspended
    assert_eq!(rt; world.entries().len(), 3);
    assert_eq!(rt;
        world.entries()[0].directive,
        Directive::Turn(Slot::new(0), ThreadNo::new(0))
    );
    assert_eq!(rt;
        world.entries()[2].directive,
        Directive::Turn(Slot::new(1), ThreadNo::new(0))
    );
    assert_eq!(rt; world.entries()[2].outcome, Outcome::Step(Reply::Word(1)));
    assert_eq!(rt; world.spare(), 3);
    assert_eq!(rt; world.row_word(RowNo::new(1)), 2251804108652544);
    assert_eq!(rt; world.row_word(RowNo::new(4000)), 0);
    Ok(())
}

#[test]
fn a_run_ends_by_the_budget_where_work_remains(rt: HostRuntime) -> Result<(), Fail> {
    let script = script(
        rt.alloc(),
        b"key 61\nkey 62\nkey 63\nsteps 2\nend 2\nturn 0 2\n",
    )?;
    let mut world = Box::new(rt.alloc(), World::<Rests>::open(rt.alloc(), &script)?)?;
    assert_eq!(rt; world.key_places(), 3);
    let end = world.run_script(&script);
    assert_eq!(rt; end, End::Budget);
    assert_eq!(rt; world.entries().len(), 6);
    assert_eq!(rt; world.entries()[2].outcome, Outcome::Keyed);
    assert_eq!(rt; world.entries()[5].outcome, Outcome::Idle);
    assert_eq!(rt; world.key_places(), 0);
    assert_eq!(rt; Box::into_inner(world).into_journal().len(), 6);
    Ok(())
}

#[test]
fn an_end_may_stand_anywhere(rt: HostRuntime) -> Result<(), Fail> {
    let script = script(rt.alloc(), b"steps 1\nend 1\nturn 1 0\n")?;
    let mut world = Box::new(rt.alloc(), World::<Rests>::open(rt.alloc(), &script)?)?;
    let end = world.run_script(&script);
    assert_eq!(rt; end, End::Given);
    assert_eq!(rt; world.entries().len(), 3);
    assert_eq!(rt; world.entries()[1].outcome, Outcome::Ended(WinNo::new(2)));
    assert_eq!(rt; world.entries()[2].outcome, Outcome::Idle);
    assert!(rt; !world.occupied(Slot::new(1)));
    // the round comes back to the host's thread that hasn't looked yet
    assert_eq!(rt;
        world.next_ready((Slot::new(1), ThreadNo::new(0))),
        Some((Slot::new(0), ThreadNo::new(1)))
    );
    Ok(())
}

#[test]
fn what_is_left_after_an_end_settles(rt: HostRuntime) -> Result<(), Fail> {
    let script = script(rt.alloc(), b"steps 1\nend 1\nsettle\n")?;
    let mut world = Box::new(rt.alloc(), World::<Rests>::open(rt.alloc(), &script)?)?;
    let end = world.run_script(&script);
    assert_eq!(rt; end, End::Quiet);
    assert_eq!(rt; world.entries().len(), 3);
    assert_eq!(rt;
        world.entries()[2].directive,
        Directive::Turn(Slot::new(0), ThreadNo::new(1))
    );
    Ok(())
}
