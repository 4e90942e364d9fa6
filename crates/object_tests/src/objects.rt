//! Words, events, mutexes, pipes, and handles on them.

use machine_stage::Step::{Ends, Makes, Says, Waits};
use machine_stage::{Stage, TWO_SLOTS, handle, handles};
use std::test::Fail;
use w32_base::{Call, Reply, WinNo};

#[test]
fn words_are_loaded_exchanged_and_added_to(rt: HostRuntime) -> Result<(), Fail> {
    let mut m = Box::new(rt.alloc(), Stage::open(rt.alloc(), TWO_SLOTS)?)?;
    let steps = [
        Says(1, Call::FetchAdd(handle(1), 0, 5), Reply::Word(1)),
        Says(1, Call::CompareExchange(handle(1), 0, 6, 9), Reply::Word(6)),
        Says(0, Call::CompareExchange(handle(1), 0, 6, 1), Reply::Word(9)),
        Says(
            0,
            Call::FetchAdd(handle(1), 0, 18446744073709551615),
            Reply::Word(9),
        ),
        Says(1, Call::Load(handle(1), 0), Reply::Word(8)),
        Says(1, Call::Load(handle(1), 12000), Reply::Word(0)),
        Says(1, Call::Load(handle(1), 12001), Reply::BadIndex),
        Says(1, Call::FetchAdd(handle(1), 12001, 1), Reply::BadIndex),
        Says(1, Call::Load(handle(2), 0), Reply::BadHandle),
    ];
    assert_eq!(rt; m.try_steps(&steps), None);
    Ok(())
}

#[test]
fn an_event_is_taken_by_a_wait_unless_it_is_manual(rt: HostRuntime) -> Result<(), Fail> {
    let mut m = Box::new(rt.alloc(), Stage::open(rt.alloc(), TWO_SLOTS)?)?;
    let steps = [
        Says(1, Call::Event(true, false), Reply::Handle(handle(4))),
        Says(1, Call::Event(false, true), Reply::Handle(handle(5))),
        Says(1, Call::WaitAny(handles(&[4, 5])), Reply::Woke(1)),
        Waits(1, Call::WaitAny(handles(&[4, 5]))),
        Says(1, Call::Set(handle(4)), Reply::Done),
        Says(1, Call::WaitAny(handles(&[5, 4])), Reply::Woke(1)),
        Says(1, Call::WaitAny(handles(&[4, 4])), Reply::Woke(0)),
        Says(1, Call::Reset(handle(4)), Reply::Done),
        Waits(1, Call::WaitAny(handles(&[4, 5]))),
    ];
    assert_eq!(rt; m.try_steps(&steps), None);
    Ok(())
}

#[test]
fn a_wait_on_an_absent_handle_goes_with_a_signalled_one(rt: HostRuntime) -> Result<(), Fail> {
    let mut m = Box::new(rt.alloc(), Stage::open(rt.alloc(), TWO_SLOTS)?)?;
    let steps = [
        Says(1, Call::Event(false, true), Reply::Handle(handle(4))),
        Waits(1, Call::WaitAny(handles(&[]))),
        Waits(1, Call::WaitAny(handles(&[9]))),
        Waits(1, Call::WaitAny(handles(&[9, 1]))),
        Says(1, Call::WaitAny(handles(&[9, 4])), Reply::BadHandle),
        Says(1, Call::WaitAny(handles(&[4, 9])), Reply::BadHandle),
        Says(1, Call::WaitAny(handles(&[4])), Reply::Woke(0)),
    ];
    assert_eq!(rt; m.try_steps(&steps), None);
    Ok(())
}

#[test]
fn a_mutex_whose_owner_ended_is_abandoned(rt: HostRuntime) -> Result<(), Fail> {
    let mut m = Box::new(rt.alloc(), Stage::open(rt.alloc(), TWO_SLOTS)?)?;
    let steps = [
        Says(1, Call::Mutex(false), Reply::Handle(handle(4))),
        Makes(5, handles(&[4])),
        Says(2, Call::WaitAny(handles(&[4])), Reply::Woke(0)),
        Waits(1, Call::WaitAny(handles(&[4]))),
        Ends(2, Some(WinNo::new(3))),
        Says(1, Call::WaitAny(handles(&[4])), Reply::Abandoned(0)),
        Says(1, Call::WaitAny(handles(&[4])), Reply::Woke(0)),
        Says(1, Call::Release(handle(4)), Reply::Done),
    ];
    assert_eq!(rt; m.try_steps(&steps), None);
    Ok(())
}

#[test]
fn an_abandoned_mutex_is_released_after_its_taking_alone(rt: HostRuntime) -> Result<(), Fail> {
    let mut m = Box::new(rt.alloc(), Stage::open(rt.alloc(), TWO_SLOTS)?)?;
    let steps = [
        Says(1, Call::Mutex(false), Reply::Handle(handle(4))),
        Makes(5, handles(&[4])),
        Says(2, Call::WaitAny(handles(&[4])), Reply::Woke(0)),
        Says(2, Call::ExitSelf(0), Reply::Done),
        Says(1, Call::Release(handle(4)), Reply::NotOwner),
        Says(1, Call::WaitAny(handles(&[1, 4])), Reply::Abandoned(1)),
        Says(1, Call::Release(handle(4)), Reply::Done),
        Says(1, Call::Release(handle(4)), Reply::NotOwner),
    ];
    assert_eq!(rt; m.try_steps(&steps), None);
    Ok(())
}

#[test]
fn one_release_frees_a_mutex_taken_twice(rt: HostRuntime) -> Result<(), Fail> {
    let mut m = Box::new(rt.alloc(), Stage::open(rt.alloc(), TWO_SLOTS)?)?;
    let steps = [
        Says(1, Call::Mutex(true), Reply::Handle(handle(4))),
        Makes(5, handles(&[4])),
        Says(1, Call::WaitAny(handles(&[4])), Reply::Woke(0)),
        Says(2, Call::Release(handle(4)), Reply::NotOwner),
        Says(1, Call::Release(handle(4)), Reply::Done),
        Says(2, Call::WaitAny(handles(&[4])), Reply::Woke(0)),
    ];
    assert_eq!(rt; m.try_steps(&steps), None);
    Ok(())
}

#[test]
fn a_pipe_is_broken_when_its_last_writer_ended(rt: HostRuntime) -> Result<(), Fail> {
    let mut m = Box::new(rt.alloc(), Stage::open(rt.alloc(), TWO_SLOTS)?)?;
    let steps = [
        Says(1, Call::Pipe, Reply::Two(handle(4), handle(5))),
        Makes(6, handles(&[5])),
        Says(1, Call::Close(handle(5)), Reply::Done),
        Says(2, Call::Put(handle(5), 65), Reply::Done),
        Ends(2, Some(WinNo::new(3))),
        Says(1, Call::Get(handle(4)), Reply::Byte(65)),
        Says(1, Call::Get(handle(4)), Reply::Broken),
        Says(1, Call::WaitAny(handles(&[4])), Reply::Woke(0)),
    ];
    assert_eq!(rt; m.try_steps(&steps), None);
    Ok(())
}

#[test]
fn a_pipe_is_empty_while_a_writer_lives(rt: HostRuntime) -> Result<(), Fail> {
    let mut m = Box::new(rt.alloc(), Stage::open(rt.alloc(), TWO_SLOTS)?)?;
    let steps = [
        Says(1, Call::Pipe, Reply::Two(handle(4), handle(5))),
        Makes(6, handles(&[5])),
        Says(1, Call::Close(handle(5)), Reply::Done),
        Says(1, Call::Get(handle(4)), Reply::Empty),
        Waits(1, Call::WaitAny(handles(&[4]))),
        Says(2, Call::Close(handle(5)), Reply::Done),
        Says(1, Call::Get(handle(4)), Reply::Broken),
    ];
    assert_eq!(rt; m.try_steps(&steps), None);
    Ok(())
}

#[test]
fn a_pipe_holds_64_bytes(rt: HostRuntime) -> Result<(), Fail> {
    let mut m = Box::new(rt.alloc(), Stage::open(rt.alloc(), TWO_SLOTS)?)?;
    let steps = [Says(1, Call::Pipe, Reply::Two(handle(4), handle(5)))];
    assert_eq!(rt; m.try_steps(&steps), None);
    for byte in 0..64 {
        let put = Says(1, Call::Put(handle(5), byte), Reply::Done);
        assert!(rt; m.goes(&put), "{byte}");
    }
    let steps = [
        Says(1, Call::Put(handle(5), 64), Reply::Full),
        Says(1, Call::Get(handle(4)), Reply::Byte(0)),
        Says(1, Call::Put(handle(5), 64), Reply::Done),
    ];
    assert_eq!(rt; m.try_steps(&steps), None);
    Ok(())
}

#[test]
fn the_ends_of_a_pipe_differ(rt: HostRuntime) -> Result<(), Fail> {
    let mut m = Box::new(rt.alloc(), Stage::open(rt.alloc(), TWO_SLOTS)?)?;
    let steps = [
        Says(1, Call::Pipe, Reply::Two(handle(4), handle(5))),
        Says(1, Call::Put(handle(4), 1), Reply::BadHandle),
        Says(1, Call::Get(handle(5)), Reply::BadHandle),
        Says(1, Call::Put(handle(5), 1), Reply::Done),
        Waits(1, Call::WaitAny(handles(&[5]))),
        Says(1, Call::WaitAny(handles(&[5, 4])), Reply::Woke(1)),
        Says(1, Call::Close(handle(4)), Reply::Done),
        Says(1, Call::Put(handle(5), 1), Reply::NoReader),
    ];
    assert_eq!(rt; m.try_steps(&steps), None);
    Ok(())
}

#[test]
fn a_table_has_64_handles(rt: HostRuntime) -> Result<(), Fail> {
    let mut m = Box::new(rt.alloc(), Stage::open(rt.alloc(), TWO_SLOTS)?)?;
    for number in 4..65 {
        let made = Reply::Handle(handle(number));
        assert!(rt;
            m.goes(&Says(1, Call::Event(true, false), made)),
            "{number}"
        );
    }
    let steps = [
        Says(1, Call::Event(true, false), Reply::TableFull),
        Says(1, Call::Mutex(true), Reply::TableFull),
        Says(1, Call::Open(WinNo::new(1)), Reply::TableFull),
        Says(1, Call::Close(handle(30)), Reply::Done),
        Says(1, Call::Pipe, Reply::TableFull),
        Says(1, Call::Close(handle(20)), Reply::Done),
        Says(1, Call::Pipe, Reply::Two(handle(20), handle(30))),
    ];
    assert_eq!(rt; m.try_steps(&steps), None);
    Ok(())
}

#[test]
fn a_process_may_duplicate_its_own_handles(rt: HostRuntime) -> Result<(), Fail> {
    let mut m = Box::new(rt.alloc(), Stage::open(rt.alloc(), TWO_SLOTS)?)?;
    let steps = [
        Says(1, Call::Open(WinNo::new(2)), Reply::Handle(handle(4))),
        Says(1, Call::Dup(handle(4), handle(1)), Reply::Handle(handle(5))),
        Says(1, Call::Load(handle(5), 0), Reply::Word(1)),
        Says(1, Call::Dup(handle(4), handle(4)), Reply::Handle(handle(6))),
        Says(1, Call::ExitCode(handle(6)), Reply::Active),
        Says(1, Call::Dup(handle(4), handle(64)), Reply::BadHandle),
        Says(1, Call::Dup(handle(9), handle(1)), Reply::BadHandle),
        Says(1, Call::Dup(handle(1), handle(1)), Reply::BadHandle),
    ];
    assert_eq!(rt; m.try_steps(&steps), None);
    Ok(())
}

#[test]
fn a_process_may_duplicate_handles_of_another_that_lives(rt: HostRuntime) -> Result<(), Fail> {
    let mut m = Box::new(rt.alloc(), Stage::open(rt.alloc(), TWO_SLOTS)?)?;
    let steps = [
        Makes(4, handles(&[1])),
        Says(2, Call::Event(true, true), Reply::Handle(handle(2))),
        Says(1, Call::Dup(handle(4), handle(2)), Reply::Handle(handle(5))),
        Ends(2, Some(WinNo::new(3))),
        Says(1, Call::WaitAny(handles(&[5])), Reply::Woke(0)),
        Says(1, Call::Dup(handle(4), handle(2)), Reply::Gone),
        Says(1, Call::Dup(handle(4), handle(64)), Reply::Gone),
    ];
    assert_eq!(rt; m.try_steps(&steps), None);
    Ok(())
}
