//! Ends of processes, each through its turns over the words of four rows and the children in a cygheap.

ghost use Rattle.std.specs.Prelude.{◌<◌, ◌≤◌};

use child_watch::{Ending, Exiting, Gather};
use roster::Signal;
use std::alloc::Global;
use std::test::Fail;
use w32_base::{
    Acting, Call, Code, Death, Event, Instr, Limits, Modules, Name, Number, Own, Part, Pid,
    Program, Programs, Reply, RowNo, Setup, WinNo,
};

/// Image 2 runs, and exited with 7; image 3 runs, and exited with 9.
const RUNS: u64 = 2251804108652544;

const ZOMBIE: u64 = 4503603922337799;

const CHILD_RUNS: u64 = 2251806256136192;

const CHILD_ZOMBIE: u64 = 4503606069821449;

const GONE: u64 = 5629499534213120;
/// Parent 1, group 2, session 2; parent 2, group 2, session 2.
const FIRST: u64 = 68753039361;

const SECOND: u64 = 68753039362;

/// The machine, as far as an end sees it.
#[derive(Drop)]
struct Machine {
    words: [u64; 13],
    left: Option<u32>,
    turns: u32,
}

impl Machine {
    fn word(&self, place: u32) -> u64 {
        match self.words.get(place as usize) {
            Some(word) => *word,
            None => 0,
        }
    }

    fn exchange(&mut self, place: u32, old: u64, new: u64) -> Reply {
        let found = self.word(place);
        if found == old {
            if let Some(word) = self.words.get_mut(place as usize) {
                *word = new;
            }
        }
        Reply::Word(found)
    }

    fn answer(&mut self, call: &Call) -> Reply {
        self.turns = self.turns.wrapping_add(1);
        match call {
            Call::Load(_, place) => Reply::Word(self.word(*place)),
            Call::CompareExchange(_, place, old, new) => self.exchange(*place, *old, *new),
            Call::WaitAny(_) => Reply::Woke(0),
            Call::ExitSelf(code) => {
                self.left = Some(*code);
                Reply::Done
            }
            _ => Reply::Done,
        }
    }
}

fn machine_with(words: [u64; 13]) -> Machine {
    Machine {
        words,
        left: None,
        turns: 0,
    }
}

fn setup(alloc: Global) -> Result<Setup, Fail> {
    let code = Code::from_vec(vec![in alloc; Instr::GetPid]?);
    let program = Program {
        name: Name::try_new(b"main").ok_or("name")?,
        heap: 0,
        stack: 64,
        code,
    };
    Ok(Setup {
        limits: Limits {
            slots: 3,
            rows: 4,
            budget: 1,
        },
        modules: Modules::from_vec(Vec::new(alloc)),
        programs: Programs::from_vec(vec![in alloc; program]?),
    })
}

/// A process's memory with so many of two children in its list, processes 3 and 4.
fn memory(alloc: Global, children: u8) -> Result<Own, Fail> {
    let mut own = Own::new(alloc)?;
    own.cyg.reset(288);
    if own.cyg.len() == 288 {
        own.cyg.set(156, children);
    }
    if children > 0 && own.cyg.len() == 288 {
        own.cyg.set(160, 3);
    }
    if children > 1 && own.cyg.len() == 288 {
        own.cyg.set(164, 4);
    }
    Ok(own)
}

/// An end, until its Win32 process has ended: its first three events.
fn end(
    alloc: Global,
    machine: &mut Machine,
    part: &mut Exiting,
    children: u8,
) -> Result<[Option<Event>; 3], Fail> {
    let setup = Box::new(alloc, setup(alloc)?)?;
    let mut own = Box::new(alloc, memory(alloc, children)?)?;
    let mut events = [None; 3];
    let mut count: usize = 0;
    for _ in 0..40 {
        if machine.left.is_none() {
            let call = part.call();
            let reply = machine.answer(&call);
            let event = part.turn(&mut own, &setup, &reply);
            if event.is_some() && count < 3 {
                events[count] = event;
                count += 1;
            }
        }
    }
    Ok(events)
}

fn die(by: u16, status: u32, death: Death) -> Result<Option<Event>, Fail> {
    let by = Acting::try_new(by).ok_or("number")?;
    Ok(Some(Event::Die(by, Number::unsigned(status), death)))
}

fn collect(by: u16) -> Result<Option<Event>, Fail> {
    Ok(Some(Event::Collect(Acting::try_new(by).ok_or("number")?)))
}

#[test]
fn an_exit_without_parent_collects_itself(rt: HostRuntime) -> Result<(), Fail> {
    let mut machine = machine_with([1, RUNS, FIRST, 0, 0, 0, 0, 0, 0, 0, 0, 0, 0]);
    let mut part = Exiting::new(RowNo::new(1), WinNo::new(2), Ending::Exit(7));
    let events = end(rt.alloc(), &mut machine, &mut part, 0)?;
    assert_eq!(rt; events, [die(2, 7, Death::Exit)?, collect(2)?, None]);
    assert_eq!(rt;
        (machine.word(1), machine.word(3), machine.left),
        (GONE, 2 * 512 + 7, Some(7))
    );
    assert_eq!(rt; machine.turns, 9);
    Ok(())
}

#[test]
fn zombie_children_are_collected_and_others_stay(rt: HostRuntime) -> Result<(), Fail> {
    let words = [
        3,
        RUNS,
        FIRST,
        0,
        CHILD_ZOMBIE,
        SECOND,
        0,
        CHILD_RUNS,
        SECOND,
        0,
        0,
        0,
        0,
    ];
    let mut machine = machine_with(words);
    let mut part = Exiting::new(RowNo::new(1), WinNo::new(2), Ending::Signal(Signal::new(9)));
    let events = end(rt.alloc(), &mut machine, &mut part, 2)?;
    assert_eq!(rt;
        events,
        [die(2, 265, Death::Signal)?, collect(3)?, collect(2)?]
    );
    assert_eq!(rt;
        (machine.word(4), machine.word(7), machine.left),
        (GONE, CHILD_RUNS, Some(265))
    );
    Ok(())
}

#[test]
fn a_zombie_is_left_to_its_live_parent(rt: HostRuntime) -> Result<(), Fail> {
    let mut machine = machine_with([2, RUNS, FIRST, 0, CHILD_RUNS, SECOND, 0, 0, 0, 0, 0, 0, 0]);
    let mut part = Exiting::new(RowNo::new(2), WinNo::new(3), Ending::Exit(9));
    let events = end(rt.alloc(), &mut machine, &mut part, 0)?;
    assert_eq!(rt; events, [die(3, 9, Death::Exit)?, None, None]);
    assert_eq!(rt;
        (machine.word(4), machine.word(6), machine.left),
        (CHILD_ZOMBIE, 3 * 512 + 9, Some(9))
    );
    Ok(())
}

#[test]
fn a_fault_leaves_its_bit_and_a_dead_parent_doesnt_reap(rt: HostRuntime) -> Result<(), Fail> {
    let mut machine = machine_with([2, ZOMBIE, FIRST, 0, CHILD_RUNS, SECOND, 1, 0, 0, 0, 0, 0, 0]);
    let mut part = Exiting::new(RowNo::new(2), WinNo::new(3), Ending::Fault);
    let events = end(rt.alloc(), &mut machine, &mut part, 0)?;
    assert_eq!(rt; events, [die(3, 267, Death::Fault)?, collect(3)?, None]);
    assert_eq!(rt;
        (machine.word(4), machine.word(6)),
        (GONE, 268435456 + 3 * 512 + 267)
    );
    Ok(())
}

#[test]
fn parts_post_and_go_through_their_trait(rt: HostRuntime) -> Result<(), Fail> {
    let setup = Box::new(rt.alloc(), setup(rt.alloc())?)?;
    let mut own = Box::new(rt.alloc(), Own::new(rt.alloc())?)?;
    let mut machine = machine_with([1, ZOMBIE, FIRST, 0, 0, 0, 0, 0, 0, 0, 0, 0, 0]);
    let mut gather = Gather::new(RowNo::new(1));
    let mut events: u32 = 0;
    for _ in 0..5 {
        if !gather.is_finished() {
            let call = gather.posted();
            let reply = machine.answer(&call);
            if gather.after(&mut own, &setup, &reply).event.is_some() {
                events = events.wrapping_add(1);
            }
        }
    }
    assert_eq!(rt; (events, machine.word(1), machine.turns), (1, GONE, 2));
    Ok(())
}
