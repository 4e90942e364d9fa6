//! Threads of the layer through their turns: small programs over the words of one or two rows.

ghost use Rattle.std.specs.Prelude.{◌<◌, ◌≤◌};

use layer_actor::{Actor, Asked, Gets, built};
use std::alloc::Global;
use std::test::Fail;
use w32_base::{
    Acting, Answer, Call, Code, Death, Errno, Event, Field, HandleNo, Instr, Limits, Memory,
    Modules, Name, Number, Operand, Own, Part, Pid, Program, Programs, Register, Reply, RowNo,
    Setup, Slot, ThreadNo, Whole,
};

/// Image 2 runs; with INT pending.
const RUNS: u64 = 2251804108652544;

const RUNS_INT: u64 = 2251804108652546;

const GONE: u64 = 5629499534213120;
/// Parent 1, group 2, session 2; parent 3, group 4, session 5.
const FIRST: u64 = 68753039361;

const OTHER: u64 = 68803379203;

/// The machine, as far as these threads see it: the words of two rows, and the last handle.
#[derive(Drop)]
struct Machine {
    words: [u64; 7],
    handle: u8,
    resumed: u32,
    left: Option<u32>,
    turns: u32,
}

fn machine_with(words: [u64; 7]) -> Machine {
    Machine {
        words,
        handle: 3,
        resumed: 0,
        left: None,
        turns: 0,
    }
}

impl Machine {
    fn word(&self, place: u32) -> u64 {
        match self.words.get(place as usize) {
            Some(word) => *word,
            None => 0,
        }
    }

    fn exchange(&mut self, place: u32, old: u64, new: u64) -> Reply {
        let found = self.word(place);
        if found == old {
            if let Some(word) = self.words.get_mut(place as usize) {
                *word = new;
            }
        }
        Reply::Word(found)
    }

    fn made(&mut self) -> HandleNo {
        if self.handle < 64 {
            self.handle += 1;
        }
        match HandleNo::try_new(self.handle) {
            Some(handle) => handle,
            None => HandleNo::new(1),
        }
    }

    fn answer(&mut self, call: &Call) -> Reply {
        self.turns = self.turns.wrapping_add(1);
        match call {
            Call::Load(_, place) => Reply::Word(self.word(*place)),
            Call::CompareExchange(_, place, old, new) => self.exchange(*place, *old, *new),
            Call::Event(_, _) | Call::Mutex(_) | Call::Open(_) => Reply::Handle(self.made()),
            Call::Pipe => {
                let reads = self.made();
                let writes = self.made();
                Reply::Two(reads, writes)
            }
            Call::Resume(_, _) => {
                self.resumed = self.resumed.wrapping_add(1);
                Reply::Count(1)
            }
            Call::WaitAny(_) => Reply::Woke(0),
            Call::Run => Reply::Ran(3),
            Call::ExitCode(_) => Reply::Code(7),
            Call::ExitSelf(code) => {
                self.left = Some(*code);
                Reply::Done
            }
            _ => Reply::Done,
        }
    }
}

/// A program with each call that is built, a local instruction at place 8, and nothing behind it.
fn setup(alloc: Global) -> Result<Setup, Fail> {
    let code = Code::from_vec(vec![in alloc;
        Instr::GetPid,
        Instr::GetPpid,
        Instr::GetPgid,
        Instr::GetSid,
        Instr::Kill(Operand::Number(2), Operand::Number(0)),
        Instr::Kill(Operand::Number(3), Operand::Number(0)),
        Instr::Kill(Operand::Number(-1), Operand::Number(0)),
        Instr::Exit(Operand::Number(300)),
        Instr::Set(Register::new(1), Operand::Number(5)),
    ]?);
    let program = Program {
        name: Name::try_new(b"main").ok_or("name")?,
        heap: 0,
        stack: 64,
        code,
    };
    Ok(Setup {
        limits: Limits {
            slots: 2,
            rows: 2,
            budget: 1,
        },
        modules: Modules::from_vec(Vec::new(alloc)),
        programs: Programs::from_vec(vec![in alloc; program]?),
    })
}

/// The memory of a layer process whose next instruction has this place.
fn memory(alloc: Global, place: u32) -> Result<Own, Memory> {
    let mut own = Own::new(alloc)?;
    own.dat.reset(64);
    own.stack.reset(64);
    own.cyg.reset(288);
    own.scratch.reset(512);
    if own.dat.len() == 64 {
        own.dat.set_word(32, place);
    }
    Ok(own)
}

/// A thread until its process has ended, and not more than so many turns: its first ten events.
fn events(
    alloc: Global,
    machine: &mut Machine,
    slot: u8,
    thread: u8,
    place: u32,
    turns: u8,
) -> Result<[Option<Event>; 10], Fail> {
    let setup = Box::new(alloc, setup(alloc)?)?;
    let mut own = Box::new(alloc, memory(alloc, place)?)?;
    let slot = Slot::try_new(slot).ok_or("slot")?;
    let thread = ThreadNo::try_new(thread).ok_or("thread")?;
    let mut actor = Actor::open(slot, thread);
    let mut events = [None; 10];
    let mut count: usize = 0;
    for _ in 0..turns {
        if machine.left.is_none() {
            let call = actor.posted();
            let reply = machine.answer(&call);
            let after = actor.after(&mut own, &setup, &reply);
            if after.event.is_some() && count < 10 {
                events[count] = after.event;
                count += 1;
            }
        }
    }
    Ok(events)
}

fn get(field: Field, value: u32) -> Option<Event> {
    let by = Acting::process(Pid::new(2));
    Some(Event::Get(by, field, Number::unsigned(value)))
}

fn kill(target: i32, answer: Answer) -> Option<Event> {
    let by = Acting::process(Pid::new(2));
    Some(Event::Kill(by, Number::signed(target), Number::unsigned(0), answer))
}

#[test]
fn the_first_process_runs_each_call_to_its_end(rt: HostRuntime) -> Result<(), Fail> {
    let mut machine = machine_with([1, RUNS, FIRST, 0, 0, 0, 0]);
    let found = events(rt.alloc(), &mut machine, 1, 0, 0, 100)?;
    let by = Acting::process(Pid::new(2));
    assert_eq!(rt; found[0], get(Field::Pid, 2));
    assert_eq!(rt; found[1], get(Field::Ppid, 1));
    assert_eq!(rt; found[2], get(Field::Pgid, 2));
    assert_eq!(rt; found[3], get(Field::Sid, 2));
    assert_eq!(rt; found[4], kill(2, Answer::Zero));
    assert_eq!(rt; found[5], kill(3, Answer::Error(Errno::ESRCH)));
    assert_eq!(rt; found[6], kill(-1, Answer::Error(Errno::EINVAL)));
    assert_eq!(rt;
        found[7],
        Some(Event::Die(by, Number::unsigned(44), Death::Exit))
    );
    assert_eq!(rt; found[8], Some(Event::Collect(by)));
    assert_eq!(rt; found[9], None);
    assert_eq!(rt;
        (machine.left, machine.word(1), machine.word(3)),
        (Some(44), GONE, 2 * 512 + 44)
    );
    assert_eq!(rt;
        (machine.handle, machine.resumed, machine.turns),
        (9, 2, 31)
    );
    Ok(())
}

#[test]
fn a_block_has_its_event_and_a_fault_ends_the_process(rt: HostRuntime) -> Result<(), Fail> {
    let by = Acting::process(Pid::new(2));
    let mut blocks = machine_with([1, RUNS, FIRST, 0, 0, 0, 0]);
    let found = events(rt.alloc(), &mut blocks, 1, 0, 8, 13)?;
    let run = Some(Event::Run(by, Number::unsigned(3)));
    assert_eq!(rt; found[0], run);
    assert_eq!(rt; found[1], run);
    assert_eq!(rt; found[2], None);
    let mut fault = machine_with([1, RUNS, FIRST, 0, 0, 0, 0]);
    let found = events(rt.alloc(), &mut fault, 1, 0, 9, 100)?;
    assert_eq!(rt;
        found[0],
        Some(Event::Die(by, Number::unsigned(267), Death::Fault))
    );
    assert_eq!(rt; fault.left, Some(267));
    Ok(())
}

#[test]
fn a_deliverable_signal_lets_the_thread_rest(rt: HostRuntime) -> Result<(), Fail> {
    let mut machine = machine_with([1, RUNS_INT, FIRST, 0, 0, 0, 0]);
    let found = events(rt.alloc(), &mut machine, 1, 0, 0, 40)?;
    assert_eq!(rt; found[0], None);
    assert_eq!(rt; machine.left, None);
    Ok(())
}

/// What `getppid` answers a process with parent 3, in r0.
fn parent(alloc: Global, machine: &mut Machine) -> Result<u32, Fail> {
    let mut own = Box::new(alloc, memory(alloc, 0)?)?;
    let mut part = Gets::new(RowNo::new(1), Asked::Parent);
    for _ in 0..4 {
        if !part.is_finished() {
            let call = part.call();
            let reply = machine.answer(&call);
            let _ = part.turn(&mut own, &reply);
        }
    }
    if own.dat.len() != 64 {
        return Err("data".into());
    }
    Ok(own.dat.word(0))
}

#[test]
fn a_parent_is_shown_while_it_lives(rt: HostRuntime) -> Result<(), Fail> {
    let mut lives = machine_with([2, RUNS, OTHER, 0, RUNS, FIRST, 0]);
    assert_eq!(rt; parent(rt.alloc(), &mut lives)?, 3);
    let mut gone = machine_with([2, RUNS, OTHER, 0, GONE, FIRST, 0]);
    assert_eq!(rt; parent(rt.alloc(), &mut gone)?, 1);
    Ok(())
}

#[test]
fn the_starter_tells_the_host_and_other_threads_rest(rt: HostRuntime) -> Result<(), Fail> {
    let mut machine = machine_with([1, RUNS, FIRST, 0, 0, 0, 0]);
    let host = Some(Event::Host(Acting::host(), Number::unsigned(7)));
    let found = events(rt.alloc(), &mut machine, 0, 1, 0, 6)?;
    assert_eq!(rt; found[0], host);
    assert_eq!(rt; found[1], None);
    let mut helper = machine_with([1, RUNS, FIRST, 0, 0, 0, 0]);
    let found = events(rt.alloc(), &mut helper, 1, 2, 0, 6)?;
    assert_eq!(rt; found[0], None);
    Ok(())
}
