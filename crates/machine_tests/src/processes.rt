//! Calls that make, hold and end processes.

use machine_stage::Step::{Ends, Makes, Says, Turns, Waits};
use machine_stage::{Stage, TWO_SLOTS, handle, handles};
use std::test::Fail;
use w32_base::{Call, Reply, WinNo};

#[test]
fn a_process_is_made_while_there_is_a_slot(rt: HostRuntime) -> Result<(), Fail> {
    let mut m = Box::new(rt.alloc(), Stage::open(rt.alloc(), TWO_SLOTS)?)?;
    let made = Reply::Made(handle(4), WinNo::new(3));
    let steps = [
        Says(1, Call::Create(1, handles(&[])), Reply::BadIndex),
        Says(1, Call::Create(0, handles(&[])), made),
        Says(1, Call::Create(0, handles(&[])), Reply::NoSlot),
        Says(1, Call::Create(1, handles(&[])), Reply::BadIndex),
        Says(1, Call::Create(1, handles(&[9])), Reply::BadHandle),
    ];
    assert_eq!(rt; m.try_steps(&steps), None);
    Ok(())
}

#[test]
fn a_process_that_has_ended_has_a_code(rt: HostRuntime) -> Result<(), Fail> {
    let mut m = Box::new(rt.alloc(), Stage::open(rt.alloc(), TWO_SLOTS)?)?;
    let steps = [
        Makes(4, handles(&[1])),
        Says(1, Call::ExitCode(handle(4)), Reply::Active),
        Waits(1, Call::WaitAny(handles(&[4]))),
        Ends(2, Some(WinNo::new(3))),
        Ends(2, None),
        Says(1, Call::ExitCode(handle(4)), Reply::Code(65536)),
        Says(1, Call::WaitAny(handles(&[4])), Reply::Woke(0)),
    ];
    assert_eq!(rt; m.try_steps(&steps), None);
    Ok(())
}

#[test]
fn a_process_is_opened_while_it_lives_or_is_held(rt: HostRuntime) -> Result<(), Fail> {
    let mut m = Box::new(rt.alloc(), Stage::open(rt.alloc(), TWO_SLOTS)?)?;
    let steps = [
        Makes(4, handles(&[1])),
        Says(1, Call::Open(WinNo::new(9)), Reply::Unknown),
        Says(2, Call::ExitSelf(7), Reply::Done),
        Says(1, Call::Open(WinNo::new(3)), Reply::Handle(handle(5))),
        Says(1, Call::Close(handle(4)), Reply::Done),
        Says(1, Call::ExitCode(handle(5)), Reply::Code(7)),
        Says(1, Call::Close(handle(5)), Reply::Done),
        Says(1, Call::Open(WinNo::new(3)), Reply::Unknown),
    ];
    assert_eq!(rt; m.try_steps(&steps), None);
    Ok(())
}

#[test]
fn a_thread_runs_when_its_count_is_zero(rt: HostRuntime) -> Result<(), Fail> {
    let mut m = Box::new(rt.alloc(), Stage::open(rt.alloc(), TWO_SLOTS)?)?;
    let made = Reply::Made(handle(4), WinNo::new(3));
    let steps = [
        Says(1, Call::Create(0, handles(&[1])), made),
        Waits(2, Call::Load(handle(1), 0)),
        Says(1, Call::Resume(handle(4), 0), Reply::Count(1)),
        Says(1, Call::Resume(handle(4), 0), Reply::Count(0)),
        Says(2, Call::Load(handle(1), 0), Reply::Word(1)),
        Says(1, Call::Suspend(handle(4), 0), Reply::Count(0)),
        Waits(2, Call::Load(handle(1), 0)),
    ];
    assert_eq!(rt; m.try_steps(&steps), None);
    Ok(())
}

#[test]
fn helper_threads_start_suspended(rt: HostRuntime) -> Result<(), Fail> {
    let mut m = Box::new(rt.alloc(), Stage::open(rt.alloc(), TWO_SLOTS)?)?;
    let steps = [
        Makes(4, handles(&[1])),
        Turns(2, 1, Call::Load(handle(1), 0), None),
        Says(1, Call::Resume(handle(4), 1), Reply::Count(1)),
        Turns(2, 1, Call::Load(handle(1), 0), Some(Reply::Word(1))),
        Says(1, Call::Resume(handle(4), 3), Reply::BadIndex),
        Says(1, Call::Suspend(handle(4), 3), Reply::BadIndex),
        Ends(2, Some(WinNo::new(3))),
        Says(1, Call::Resume(handle(4), 3), Reply::Gone),
        Says(1, Call::Suspend(handle(4), 0), Reply::Gone),
    ];
    assert_eq!(rt; m.try_steps(&steps), None);
    Ok(())
}

#[test]
fn a_count_stays_at_most_100(rt: HostRuntime) -> Result<(), Fail> {
    let mut m = Box::new(rt.alloc(), Stage::open(rt.alloc(), TWO_SLOTS)?)?;
    assert!(rt; m.goes(&Makes(4, handles(&[1]))));
    for count in 1..100 {
        let suspends = Says(1, Call::Suspend(handle(4), 2), Reply::Count(count));
        assert!(rt; m.goes(&suspends), "{count}");
    }
    let steps = [
        Says(1, Call::Suspend(handle(4), 2), Reply::Count(100)),
        Says(1, Call::Resume(handle(4), 2), Reply::Count(100)),
    ];
    assert_eq!(rt; m.try_steps(&steps), None);
    Ok(())
}

#[test]
fn a_handle_may_be_listed_twice(rt: HostRuntime) -> Result<(), Fail> {
    let mut m = Box::new(rt.alloc(), Stage::open(rt.alloc(), TWO_SLOTS)?)?;
    let steps = [
        Says(1, Call::Create(0, handles(&[1, 9])), Reply::BadHandle),
        Makes(4, handles(&[1, 3, 1])),
        Says(2, Call::Load(handle(1), 0), Reply::Word(1)),
        Says(2, Call::Release(handle(2)), Reply::BadHandle),
        Says(2, Call::Event(true, false), Reply::Handle(handle(2))),
        Says(2, Call::Close(handle(1)), Reply::Done),
        Says(2, Call::Load(handle(1), 0), Reply::BadHandle),
        Says(1, Call::Load(handle(1), 0), Reply::Word(1)),
    ];
    assert_eq!(rt; m.try_steps(&steps), None);
    Ok(())
}

#[test]
fn a_process_takes_a_free_handle_of_its_maker(rt: HostRuntime) -> Result<(), Fail> {
    let mut m = Box::new(rt.alloc(), Stage::open(rt.alloc(), TWO_SLOTS)?)?;
    for number in 4..65 {
        let made = Reply::Handle(handle(number));
        assert!(rt;
            m.goes(&Says(1, Call::Event(true, false), made)),
            "{number}"
        );
    }
    let steps = [
        Says(1, Call::Create(0, handles(&[])), Reply::TableFull),
        Says(1, Call::Close(handle(33)), Reply::Done),
        Makes(33, handles(&[])),
        Says(1, Call::Create(0, handles(&[])), Reply::NoSlot),
    ];
    assert_eq!(rt; m.try_steps(&steps), None);
    Ok(())
}

#[test]
fn a_process_may_end_itself_by_its_handle(rt: HostRuntime) -> Result<(), Fail> {
    let mut m = Box::new(rt.alloc(), Stage::open(rt.alloc(), TWO_SLOTS)?)?;
    let steps = [
        Says(1, Call::Open(WinNo::new(2)), Reply::Handle(handle(4))),
        Waits(0, Call::WaitAny(handles(&[4]))),
        Says(1, Call::Terminate(handle(4), 7), Reply::Done),
        Waits(1, Call::Load(handle(1), 0)),
        Says(0, Call::ExitCode(handle(4)), Reply::Code(7)),
        Says(0, Call::Terminate(handle(4), 8), Reply::Gone),
        Says(0, Call::WaitAny(handles(&[4])), Reply::Woke(0)),
    ];
    assert_eq!(rt; m.try_steps(&steps), None);
    Ok(())
}

#[test]
fn the_host_may_be_ended(rt: HostRuntime) -> Result<(), Fail> {
    let mut m = Box::new(rt.alloc(), Stage::open(rt.alloc(), TWO_SLOTS)?)?;
    let steps = [
        Says(1, Call::Open(WinNo::new(1)), Reply::Handle(handle(4))),
        Says(1, Call::Terminate(handle(2), 5), Reply::BadHandle),
        Says(1, Call::Terminate(handle(4), 5), Reply::Done),
        Waits(0, Call::Load(handle(1), 0)),
        Says(1, Call::ExitCode(handle(4)), Reply::Code(5)),
        Says(1, Call::Terminate(handle(4), 6), Reply::Gone),
        Says(1, Call::Load(handle(1), 0), Reply::Word(1)),
    ];
    assert_eq!(rt; m.try_steps(&steps), None);
    Ok(())
}
