//! Runs of small programs, and lists that are none.

use posix_model::rule::Rule;
use posix_model::state::{ApplyError, State};
use run_check::{Judged, Verdict, check, judge};
use script_spec::{Kind, Lines, Occupied, ScheduleLine, Script};
use std::alloc::Global;
use std::test::Fail;
use w32_base::{
    Acting, Action, Answer, Code, Death, Delivery, Event, Instr, Limits, MaskChange, Modules, Name,
    NewAction, Number, Operand, Pid, Program, Programs, Register, Setup,
};

fn script(alloc: Global, program: Program) -> Result<Script, Fail> {
    Ok(Script {
        setup: Setup {
            limits: Limits {
                slots: 2,
                rows: 8,
                budget: 1000,
            },
            modules: Modules::from_vec(Vec::new(alloc)),
            programs: Programs::from_vec(vec![in alloc; program]?),
        },
        occupied: Occupied::from_vec(Vec::new(alloc)),
        directives: Lines::from_vec(vec![in alloc; ScheduleLine::Settle]?),
    })
}

fn register(number: u8) -> Register {
    Register::new(number % 8)
}

fn value(n: i32) -> Operand {
    Operand::Number(n)
}

fn process(number: u16) -> Acting {
    Acting::process(Pid::new(2 + number % 4000))
}

fn number(n: i32) -> Number {
    Number::signed(n)
}

/// `fork ; jzero r0 5 ; wait -1 0 ; wait -1 0 ; exit 0 ; exit 7`.
fn with_child(alloc: Global) -> Result<Script, Fail> {
    let program = Program {
        name: Name::try_new(b"main").ok_or("name")?,
        heap: 0,
        stack: 64,
        code: Code::from_vec(vec![in alloc;
            Instr::Fork,
            Instr::JumpZero(Operand::Register(register(0)), 5),
            Instr::Wait(value(-1), value(0)),
            Instr::Wait(value(-1), value(0)),
            Instr::Exit(value(0)),
            Instr::Exit(value(7)),
        ]?),
    };
    script(alloc, program)
}

/// The events of a run of it, in which the parent waits before its child ends.
fn with_child_events(alloc: Global) -> Result<Vec<Event>, Fail> {
    Ok(vec![in alloc;
        Event::Fork(process(0), number(3)),
        Event::Run(process(0), number(1)),
        Event::Look(process(0), number(3)),
        Event::Block(process(0)),
        Event::Run(process(1), number(1)),
        Event::Die(process(1), number(7), Death::Exit),
        Event::Reap(process(0), number(3), number(7)),
        Event::NoChild(process(0)),
        Event::Die(process(0), number(0), Death::Exit),
        Event::Collect(process(0)),
        Event::Host(Acting::host(), number(0)),
    ]?)
}

#[test]
fn a_child_is_reaped(rt: HostRuntime) -> Result<(), Fail> {
    let script = Box::new(rt.alloc(), with_child(rt.alloc())?)?;
    let events = with_child_events(rt.alloc())?;
    assert_eq!(rt; events.len(), 11);
    assert_eq!(rt; check(rt.alloc(), &script, &events)?, Verdict::Yes);
    Ok(())
}

#[test]
fn a_reaping_without_a_child_is_none(rt: HostRuntime) -> Result<(), Fail> {
    let script = Box::new(rt.alloc(), with_child(rt.alloc())?)?;
    let events = vec![in rt.alloc(); Event::Reap(process(0), number(3), number(7))]?;
    let verdict = Verdict::No {
        line: 2,
        rule: Rule::Reap,
    };
    assert_eq!(rt; check(rt.alloc(), &script, &events)?, verdict);
    assert_eq!(rt; Rule::Reap.as_str(), "reap");
    Ok(())
}

#[test]
fn a_refusal_leaves_the_state(rt: HostRuntime) -> Result<(), Fail> {
    let script = Box::new(rt.alloc(), with_child(rt.alloc())?)?;
    let events = with_child_events(rt.alloc())?;
    let mut state = Box::new(rt.alloc(), State::open(rt.alloc(), &script)?)?;
    for event in events.iter() {
        assert_eq!(rt;
            state.apply(&Event::Run(process(0), number(2))),
            Err(ApplyError::NotAllowed { rule: Rule::Run })
        );
        assert_eq!(rt;
            state.apply(&Event::Reap(process(1), number(2), number(0))),
            Err(ApplyError::NotAllowed { rule: Rule::Reap })
        );
        assert_eq!(rt; state.apply(event), Ok(()));
    }
    Ok(())
}

/// `action 15 handler 7 ; mask block 16384 ; kill 2 15 ; kill 2 15 ; mask unblock 16384 ; load r3 0 ; exit r3 ;
/// load r3 0 ; add r3 1 ; store 0 r3 ; return`.
fn with_handler(alloc: Global) -> Result<Script, Fail> {
    let program = Program {
        name: Name::try_new(b"main").ok_or("name")?,
        heap: 4,
        stack: 64,
        code: Code::from_vec(vec![in alloc;
            Instr::Action(value(15), Action::Handler(7, false)),
            Instr::Mask(MaskChange::Block, value(16384)),
            Instr::Kill(value(2), value(15)),
            Instr::Kill(value(2), value(15)),
            Instr::Mask(MaskChange::Unblock, value(16384)),
            Instr::Load(register(3), value(0)),
            Instr::Exit(Operand::Register(register(3))),
            Instr::Load(register(3), value(0)),
            Instr::Add(register(3), value(1)),
            Instr::Store(value(0), Operand::Register(register(3))),
            Instr::Return,
        ]?),
    };
    script(alloc, program)
}

#[test]
fn a_pending_signal_is_handled_once(rt: HostRuntime) -> Result<(), Fail> {
    let script = Box::new(rt.alloc(), with_handler(rt.alloc())?)?;
    let kill = Event::Kill(process(0), number(2), number(15), Answer::Zero);
    let events = vec![in rt.alloc();
        Event::SetAction(process(0), number(15), NewAction::Handler(number(7), false)),
        Event::Mask(process(0), number(16384)),
        kill,
        kill,
        Event::Mask(process(0), number(0)),
        Event::Deliver(process(0), number(15), Delivery::Plain),
        Event::Run(process(0), number(3)),
        Event::Return(process(0)),
        Event::Run(process(0), number(1)),
        Event::Die(process(0), number(1), Death::Exit),
        Event::Host(Acting::host(), number(1)),
    ]?;
    assert_eq!(rt; check(rt.alloc(), &script, &events)?, Verdict::Yes);
    Ok(())
}

/// `fork ; jzero r0 6 ; setpgid 3 3 ; kill -3 15 ; wait 3 0 ; exit 0 ; pause`.
fn with_group(alloc: Global) -> Result<Script, Fail> {
    let program = Program {
        name: Name::try_new(b"main").ok_or("name")?,
        heap: 0,
        stack: 64,
        code: Code::from_vec(vec![in alloc;
            Instr::Fork,
            Instr::JumpZero(Operand::Register(register(0)), 6),
            Instr::SetPgid(value(3), value(3)),
            Instr::Kill(value(-3), value(15)),
            Instr::Wait(value(3), value(0)),
            Instr::Exit(value(0)),
            Instr::Pause,
        ]?),
    };
    script(alloc, program)
}

#[test]
fn a_group_is_killed_member_by_member(rt: HostRuntime) -> Result<(), Fail> {
    let script = Box::new(rt.alloc(), with_group(rt.alloc())?)?;
    let begin = [
        Event::Fork(process(0), number(3)),
        Event::Run(process(0), number(1)),
        Event::SetPgid(process(0), number(3), number(3)),
    ];
    let member = Event::Member(process(0), number(3), number(15));
    let done = Event::GroupDone(process(0), number(3), number(15), Answer::Zero);
    let mut events = begin.to_vec(rt.alloc())?;
    events.push(member)?;
    events.push(done)?;
    events.push(Event::Die(process(1), number(271), Death::Signal))?;
    events.push(Event::Reap(process(0), number(3), number(271)))?;
    events.push(Event::Die(process(0), number(0), Death::Exit))?;
    assert_eq!(rt; check(rt.alloc(), &script, &events)?, Verdict::Yes);
    let mut early = begin.to_vec(rt.alloc())?;
    early.push(done)?;
    let verdict = Verdict::No {
        line: 5,
        rule: Rule::GroupDone,
    };
    assert_eq!(rt; check(rt.alloc(), &script, &early)?, verdict);
    Ok(())
}

/// A script of one process that ends at once, and a log of its run.
const ENDS: &[u8] =
    b"cygscript 1\nslots 1\nrows 1\nbudget 100000\nprogram main heap 0 stack 64\nexit 0\n\
    schedule\nsettle\n==\nlog events\ndie 2 0 exit\ncollect 2\nhost 0 0\ndone quiet\n";

/// The same script, with a log whose second line is no step.
const REAPS: &[u8] =
    b"cygscript 1\nslots 1\nrows 1\nbudget 100000\nprogram main heap 0 stack 64\nexit 0\n\
    schedule\nsettle\n==\nlog events\nreap 2 3 7\ndone quiet\n";

#[test]
fn a_script_and_a_log_are_judged(rt: HostRuntime) -> Result<(), Fail> {
    assert_eq!(rt; judge(rt.alloc(), ENDS)?, Judged::Verdict(Verdict::Yes));
    let verdict = Verdict::No {
        line: 2,
        rule: Rule::Reap,
    };
    assert_eq!(rt; judge(rt.alloc(), REAPS)?, Judged::Verdict(verdict));
    let fault = Judged::ScriptFault {
        line: 1,
        kind: Kind::NoHeader,
    };
    assert_eq!(rt; judge(rt.alloc(), b"==\nlog events\ndone quiet\n")?, fault);
    Ok(())
}
