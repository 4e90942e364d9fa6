//! The starter through its turns.

use super::*;
use std::test::Fail;
use w32_base::{Acting, Call, Event, HandleNo, Number, Reply};

#[test]
fn the_first_process_s_code_reaches_the_host(rt: HostRuntime) -> Result<(), Fail> {
    let mut part = Starter::new();
    let replies = [Reply::Word(1), Reply::Woke(0), Reply::Code(44), Reply::Done];
    let mut events = [None; 4];
    let mut calls = [Call::Run; 4];
    for i in 0..4 {
        calls[i] = part.call();
        let (next, event) = part.turn(&replies[i]);
        part = next;
        events[i] = event;
    }
    let host = Some(Event::Host(Acting::host(), Number::unsigned(44)));
    assert_eq!(rt; events, [None, None, host, None]);
    assert_eq!(rt; calls[0], Call::Load(HandleNo::new(1), 0));
    assert_eq!(rt; calls[2], Call::ExitCode(HandleNo::new(4)));
    assert_eq!(rt; part, Starter::Over);
    let (lost, event) = Starter::Asking.turn(&Reply::Active);
    assert_eq!(rt; (lost, event), (Starter::Rest, None));
    Ok(())
}
