//! Logs of small journals.

ghost use Rattle.std.specs.Prelude.{None};

use cyg_io::{MemSink, Sink};
use log_text::write_log;
use script_spec::{Lines, Occupied, ScheduleLine, Script};
use std::alloc::Global;
use std::test::Fail;
use w32_base::{
    Acting, Answer, Bytes64, Call, Code, Death, Directive, End, Entry, Errno, Event, ForkCause,
    HandleList, HandleNo, Instr, Limits, Modules, Name, NewAction, Number, Outcome, Pid, Program,
    Programs, Region, Reply, Setup, Slot, ThreadNo, TtyOp, View, WinNo,
};

/// The log of `journal` in view `all`.
const ALL: &[u8] = b"log all\n\
    1 key 0a | - | keyed | -\n\
    2 turn 0 0 | tty 3 key | key 10 0 2 | key 0 0a\n\
    3 turn 2 0 | tty 3 take 2 64 0 | line 1 | line 3 1 0a\n\
    4 turn 2 0 | tty 3 put 2 1 0 0 | put 1 | write 3 1 61\n\
    5 turn 1 0 | run | ran 2 | run 2 2\n\
    6 turn 1 0 | cas 1 1 5 0 | word 5 | die 2 0 exit\n\
    7 end 1 | - | ended 2 | -\n\
    8 turn 1 0 | - | idle | -\n\
    done budget\n";

/// Its log in view `events`.
pub const EVENTS: &[u8] =
    b"log events\nkey 0 0a\nline 3 1 0a\nwrite 3 1 61\nrun 2 2\ndie 2 0 exit\ndone given\n";

/// Its log in view `calls`, and how many pieces it goes out in: the terminal's line in four.
const CALLS: &[u8] =
    b"log calls\nkey 0 0a\ndie 2 0 exit\nline 3 1 0a\nwrite 3 1 61\ntty 0a61\ndone quiet\n";

/// How many pieces the log in view `calls` goes out in: each line is one, but for the terminal's, which is four.
const PIECES: u32 = 10;

pub fn number(value: u32) -> Number {
    Number::unsigned(value)
}

fn process(value: u16) -> Acting {
    Acting::try_new(value).unwrap_or(Acting::host())
}

fn turn(slot: u8, call: Option<Call>, outcome: Outcome, event: Option<Event>) -> Entry {
    Entry {
        directive: Directive::Turn(
            Slot::try_new(slot).unwrap_or(Slot::new(0)),
            ThreadNo::new(0),
        ),
        call,
        outcome,
        event,
    }
}

fn bytes(text: &[u8]) -> Bytes64 {
    let mut bytes = Bytes64::new();
    for byte in text {
        if bytes.len() < 64 {
            bytes.push(*byte);
        }
    }
    bytes
}

/// A key is typed, taken and echoed; the line is read by process 3, which writes a byte; process 2 dies.
pub fn journal() -> [Entry; 8] {
    let tty = HandleNo::new(3);
    let group = Pid::new(2);
    let key = Entry {
        directive: Directive::Key(10),
        call: None,
        outcome: Outcome::Keyed,
        event: None,
    };
    let end = Entry {
        directive: Directive::End(Slot::new(1)),
        call: None,
        outcome: Outcome::Ended(WinNo::new(2)),
        event: None,
    };
    [
        key,
        turn(
            0,
            Some(Call::Tty(tty, TtyOp::Key)),
            Outcome::Step(Reply::Key(10, 0, group)),
            Some(Event::Key(Acting::host(), 10)),
        ),
        turn(
            2,
            Some(Call::Tty(tty, TtyOp::Take(group, 64, 0))),
            Outcome::Step(Reply::Line(1)),
            Some(Event::Line(process(3), number(1), bytes(b"\n"))),
        ),
        turn(
            2,
            Some(Call::Tty(tty, TtyOp::Put(group, 1, 0, false))),
            Outcome::Step(Reply::Written(1)),
            Some(Event::Write(process(3), number(1), bytes(b"a"))),
        ),
        turn(
            1,
            Some(Call::Run),
            Outcome::Step(Reply::Ran(2)),
            Some(Event::Run(process(2), number(2))),
        ),
        turn(
            1,
            Some(Call::CompareExchange(HandleNo::new(1), 1, 5, 0)),
            Outcome::Step(Reply::Word(5)),
            Some(Event::Die(process(2), number(0), Death::Exit)),
        ),
        end,
        turn(1, None, Outcome::Idle, None),
    ]
}

/// A script of one program that asks for its number.
pub fn script(alloc: Global) -> Result<Script, Fail> {
    let program = Program {
        name: Name::try_new(b"main").ok_or("name")?,
        heap: 0,
        stack: 64,
        code: Code::from_vec(vec![in alloc; Instr::GetPid]?),
    };
    Ok(Script {
        setup: Setup {
            limits: Limits {
                slots: 2,
                rows: 2,
                budget: 8,
            },
            modules: Modules::from_vec(Vec::new(alloc)),
            programs: Programs::from_vec(vec![in alloc; program]?),
        },
        occupied: Occupied::from_vec(Vec::new(alloc)),
        directives: Lines::from_vec(vec![in alloc; ScheduleLine::Settle]?),
    })
}

/// A log in memory, where the calls of these numbers fail.
pub fn log_of(
    alloc: Global,
    entries: &[Entry],
    end: End,
    view: View,
    fails: &[u32],
) -> Result<(bool, MemSink), Fail> {
    let mut sink = MemSink::new(alloc, 1000, fails.to_vec(alloc)?)?;
    let is_whole = write_log(&script(alloc)?, entries, end, view, &mut sink).is_ok();
    Ok((is_whole, sink))
}

#[test]
fn a_journal_has_a_log_in_each_view(rt: HostRuntime) -> Result<(), Fail> {
    let entries = journal();
    let (is_whole, sink) = log_of(rt.alloc(), &entries, End::Budget, View::All, &[])?;
    assert!(rt; is_whole);
    assert_eq!(rt; sink.contents(), ALL);
    let (is_whole, sink) = log_of(rt.alloc(), &entries, End::Given, View::Events, &[])?;
    assert!(rt; is_whole);
    assert_eq!(rt; sink.contents(), EVENTS);
    let (is_whole, sink) = log_of(rt.alloc(), &entries, End::Quiet, View::Calls, &[])?;
    assert!(rt; is_whole);
    assert_eq!(rt; sink.contents(), CALLS);
    Ok(())
}

#[test]
fn an_empty_journal_has_a_log(rt: HostRuntime) -> Result<(), Fail> {
    let (is_whole, sink) = log_of(rt.alloc(), &[], End::Quiet, View::Calls, &[])?;
    assert!(rt; is_whole);
    assert_eq!(rt;
        sink.contents(),
        b"log calls\ntty -\ndone quiet\n".as_slice()
    );
    let (is_whole, sink) = log_of(rt.alloc(), &[], End::Quiet, View::All, &[])?;
    assert!(rt; is_whole);
    assert_eq!(rt; sink.contents(), b"log all\ndone quiet\n".as_slice());
    Ok(())
}

/// Entries with long calls and events.
pub fn long_journal() -> Result<[Entry; 4], Fail> {
    let last = process(4001);
    let low = Number::signed(i32::MIN);
    let high = number(u32::MAX);
    let mut handles = HandleList::new();
    handles.push(HandleNo::new(1));
    handles.push(HandleNo::new(64));
    let name = Name::try_new(b"core").ok_or("name")?;
    let copy = Call::WriteMemory(HandleNo::new(5), Region::Dat, 0, Region::Cyg, 512, 64);
    Ok([
        turn(
            1,
            Some(Call::Create(0, handles)),
            Outcome::Step(Reply::NoSlot),
            Some(Event::Kill(last, low, high, Answer::Error(Errno::EINVAL))),
        ),
        turn(
            1,
            Some(copy),
            Outcome::Step(Reply::Done),
            Some(Event::ForkFail(process(2), ForkCause::Placed(name, number(0), number(10)))),
        ),
        turn(
            1,
            Some(Call::Create(3, HandleList::new())),
            Outcome::Step(Reply::TableFull),
            Some(Event::SetAction(process(2), number(17), NewAction::Handler(number(9), true))),
        ),
        turn(
            1,
            Some(Call::Event(true, false)),
            Outcome::Step(Reply::State(Pid::new(2), Pid::new(2), 15)),
            Some(Event::Line(process(2), number(0), Bytes64::new())),
        ),
    ])
}

#[test]
fn long_values_have_their_texts(rt: HostRuntime) -> Result<(), Fail> {
    let entries = long_journal()?;
    let (is_whole, sink) = log_of(rt.alloc(), &entries, End::Given, View::All, &[])?;
    assert!(rt; is_whole);
    let text = b"log all\n\
    1 turn 1 0 | create 0 1,64 | noslot | kill 4001 -2147483648 4294967295 EINVAL\n\
    2 turn 1 0 | writemem 5 data 0 cyg 512 64 | done | forkfail 2 placed core 0 10\n\
    3 turn 1 0 | create 3 - | tablefull | action 2 17 handler 9 restart\n\
    4 turn 1 0 | event 1 0 | state 2 2 15 | line 2 0 -\n\
    done given\n";
    assert_eq!(rt; sink.contents(), text.as_slice());
    let (is_whole, sink) = log_of(rt.alloc(), &entries, End::Given, View::Calls, &[])?;
    assert!(rt; is_whole);
    let text = b"log calls\n\
    forkfail 2 placed core 0 10\n\
    action 2 17 handler 9 restart\n\
    line 2 0 -\n\
    kill 4001 -2147483648 4294967295 EINVAL\n\
    tty -\n\
    done given\n";
    assert_eq!(rt; sink.contents(), text.as_slice());
    Ok(())
}

#[test]
fn a_fault_leaves_a_first_part(rt: HostRuntime) -> Result<(), Fail> {
    let entries = journal();
    for call in 1..=PIECES {
        let (is_whole, sink) = log_of(rt.alloc(), &entries, End::Quiet, View::Calls, &[call])?;
        assert!(rt; !is_whole);
        assert_eq!(rt; sink.faults(), 1);
        assert!(rt; CALLS.starts_with(sink.contents()));
        assert!(rt; sink.contents().len() < CALLS.len());
    }
    let (is_whole, _sink) = log_of(rt.alloc(), &entries, End::Quiet, View::Calls, &[PIECES + 1])?;
    assert!(rt; is_whole);
    Ok(())
}
