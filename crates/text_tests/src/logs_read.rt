//! Logs that are read.

use crate::logs::{EVENTS, journal, log_of, long_journal, number, script};
use log_text::{LogError, read_events};
use script_spec::Script;
use std::alloc::Global;
use std::test::Fail;
use w32_base::{Acting, End, Entry, Event, Module, Modules, Name, View};

/// A script with the module that the long journal names.
fn script_with_core(alloc: Global) -> Result<Script, Fail> {
    let mut script = script(alloc)?;
    let core = Module {
        name: Name::try_new(b"core").ok_or("name")?,
        base: 10,
        size: 4,
    };
    script.setup.modules = Modules::from_vec(vec![in alloc; core]?);
    Ok(script)
}

/// The events of entries, in their order.
fn events_of(alloc: Global, entries: &[Entry]) -> Result<Vec<Event>, Fail> {
    let mut events = Vec::new(alloc);
    for entry in entries {
        if let Some(event) = entry.event {
            events.push(event)?;
        }
    }
    Ok(events)
}

/// Reads a log, which has no more bytes than one may have.
fn read_short(alloc: Global, script: &Script, text: &[u8]) -> Result<Vec<Event>, LogError> {
    if text.len() > 67_108_864 {
        return Err(LogError::Fault { line: 0 });
    }
    read_events(alloc, script, text)
}

#[test]
fn a_log_is_read_back(rt: HostRuntime) -> Result<(), Fail> {
    let script = Box::new(rt.alloc(), script_with_core(rt.alloc())?)?;
    let entries = journal();
    let events = read_events(rt.alloc(), &script, EVENTS)?;
    assert_eq!(rt; events, events_of(rt.alloc(), &entries)?);
    let entries = long_journal()?;
    let (is_whole, sink) = log_of(rt.alloc(), &entries, End::Quiet, View::Events, &[])?;
    assert!(rt; is_whole);
    let events = read_short(rt.alloc(), &script, sink.contents())?;
    assert_eq!(rt; events, events_of(rt.alloc(), &entries)?);
    Ok(())
}

/// A line of each kind, with each cause, field, death and action.
const KINDS: &[u8] = b"log events\n\
    run 2 256\nget 2 pid 2\nget 2 ppid 1\nget 2 pgid 2\nget 2 sid 2\nget 2 fg 2\nfork 2 3\n\
    forkfail 2 children\nforkfail 2 rows\nforkfail 2 slot\nforkfail 2 placed core 0 10\nforkfail 2 ended 3\n\
    exec 2 main\nexecfail 2 noent\nexecfail 2 slot\nexecfail 2 ended 3\nkill 2 -1 9 EINVAL\nkill 2 3 0 0\n\
    member 2 3 1\ngroupdone 2 2 1 ESRCH\nlook 2 3\nblock 2\nnothing 2\nreap 2 3 265\nreport 2 3 1024\n\
    nochild 2\nrefuse 2 EPERM\nrefuse 2 ENOENT\nrefuse 2 EINTR\nrefuse 2 EIO\nrefuse 2 ECHILD\nrefuse 2 EAGAIN\n\
    refuse 2 EACCES\nrefuse 2 ENOTTY\nmask 2 0\naction 2 1 default\naction 2 1 ignore\naction 2 1 handler 7\n\
    action 2 1 handler 7 restart\nsuspend 2 4294967295\nreturn 2\ndeliver 2 1 plain\ndeliver 2 1 eintr\n\
    discard 2 18\nstop 2 19\ndie 2 0 exit\ndie 2 257 signal\ndie 2 267 fault\ndie 2 265 world 88\nnotify 2\n\
    collect 2\nsetpgid 2 -2147483648 0\nsetsid 4001\ntcset 2 2\nflags 2 15\nbackground 2 21\nbgdone 2\n\
    line 2 0 -\nwrite 2 3 00ff61\nkey 0 7f\nhost 0 65536\ndone quiet\n";

#[test]
fn each_kind_is_read(rt: HostRuntime) -> Result<(), Fail> {
    let script = Box::new(rt.alloc(), script_with_core(rt.alloc())?)?;
    let events = read_events(rt.alloc(), &script, KINDS)?;
    assert_eq!(rt; events.len(), 61);
    assert_eq!(rt; events[60], Event::Host(Acting::host(), number(65536)));
    Ok(())
}

/// The line of a text's fault, or 0 where the text has none.
fn fault_of(alloc: Global, text: &[u8]) -> Result<u32, Fail> {
    match read_short(alloc, &script(alloc)?, text) {
        Ok(_) => Ok(0),
        Err(LogError::Fault { line }) => Ok(line),
        Err(LogError::Memory) => Err("memory".into()),
    }
}

#[test]
fn a_fault_has_its_line(rt: HostRuntime) -> Result<(), Fail> {
    for (text, line) in [
        (b"log events\nblock 2\ndone quiet\n".as_slice(), 0),
        (b"", 1),
        (b"log events", 1),
        (b"log calls\ndone quiet\n", 1),
        (b"log events\n", 2),
        (b"log events\ndone quiet", 2),
        (b"log events\nblock 2", 2),
        (b"log events\nblock 2\n", 3),
        (b"log events\nblock 2\ndone quiet\n\n", 4),
        (b"log events\nblock 2\ndone quiet\nblock 2\n", 4),
        (b"log events\nblock 2 \ndone quiet\n", 2),
        (b"log events\nblock 02\ndone quiet\n", 2),
        (b"log events\nblock 1\ndone quiet\n", 2),
        (b"log events\nblock 4002\ndone quiet\n", 2),
        (b"log events\nrun 2 +1\ndone quiet\n", 2),
        (b"log events\nrun 2 -0\ndone quiet\n", 2),
        (b"log events\nrun 2 4294967296\ndone quiet\n", 2),
        (b"log events\nkill 2 3 0\ndone quiet\n", 2),
        (b"log events\nkill 2 3 0 EDOM\ndone quiet\n", 2),
        (b"log events\nexec 2 other\ndone quiet\n", 2),
        (b"log events\nkey 2 0a\ndone quiet\n", 2),
        (b"log events\nkey 0 0A\ndone quiet\n", 2),
        (b"log events\nforkfail 2 placed core 0 10\ndone quiet\n", 2),
    ] {
        assert_eq!(rt; fault_of(rt.alloc(), text)?, line);
    }
    Ok(())
}
