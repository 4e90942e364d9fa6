//! Kills of one process, each through its turns over the words of three rows.

ghost use Rattle.std.specs.Prelude.{◌<◌, ◌≤◌};

use kill_calls::{KillOne, KillStart, begin};
use roster::Signal;
use std::alloc::Global;
use std::test::Fail;
use w32_base::{
    Acting, Answer, Call, Code, Errno, Event, HandleNo, Instr, Limits, Memory, Modules, Name,
    Number, Own, Part, Pid, Program, Programs, Reply, RowNo, Setup,
};

/// Image 2 runs; with TERM pending; is stopped by STOP; exited with 7.
const RUNS: u64 = 2251804108652544;

const RUNS_TERM: u64 = 2251804108668928;

const STOPPED: u64 = 1381479189990866944;

const ZOMBIE: u64 = 4503603922337799;
/// Parent 1, group 2, session 2; parent 2, group 3, session 2.
const FIRST: u64 = 68753039361;

const SECOND: u64 = 68753043458;

/// The machine, as far as a kill sees it.
#[derive(Drop)]
struct Machine {
    words: [u64; 10],
    puts: u32,
    turns: u32,
}

impl Machine {
    fn word(&self, place: u32) -> u64 {
        match self.words.get(place as usize) {
            Some(word) => *word,
            None => 0,
        }
    }

    fn exchange(&mut self, place: u32, old: u64, new: u64) -> Reply {
        let found = self.word(place);
        if found == old {
            if let Some(word) = self.words.get_mut(place as usize) {
                *word = new;
            }
        }
        Reply::Word(found)
    }

    fn answer(&mut self, call: &Call) -> Reply {
        self.turns = self.turns.wrapping_add(1);
        match call {
            Call::Load(_, place) => Reply::Word(self.word(*place)),
            Call::CompareExchange(_, place, old, new) => self.exchange(*place, *old, *new),
            Call::Open(_) => Reply::Handle(HandleNo::new(9)),
            Call::Dup(_, _) => Reply::Handle(HandleNo::new(10)),
            Call::Put(_, _) => {
                self.puts = self.puts.wrapping_add(1);
                Reply::Done
            }
            _ => Reply::Done,
        }
    }
}

/// Rows 1 and 3 as they are in each test, and row 2 with this main word.
fn machine_with(second: u64) -> Machine {
    Machine {
        words: [3, RUNS, FIRST, 0, second, SECOND, 0, 0, 0, 0],
        puts: 0,
        turns: 0,
    }
}

fn setup(alloc: Global) -> Result<Setup, Fail> {
    let code = Code::from_vec(vec![in alloc; Instr::GetPid]?);
    let program = Program {
        name: Name::try_new(b"main").ok_or("name")?,
        heap: 0,
        stack: 64,
        code,
    };
    Ok(Setup {
        limits: Limits {
            slots: 3,
            rows: 3,
            budget: 1,
        },
        modules: Modules::from_vec(Vec::new(alloc)),
        programs: Programs::from_vec(vec![in alloc; program]?),
    })
}

/// A process's memory with an empty image.
fn image(alloc: Global) -> Result<Own, Memory> {
    let mut own = Own::new(alloc)?;
    own.dat.reset(64);
    Ok(own)
}

/// Process 2's kill with these values, to its end: r0, the place of the next instruction, and the first two events.
fn kill(
    alloc: Global,
    machine: &mut Machine,
    target: i32,
    signal: i32,
) -> Result<(u32, u32, [Option<Event>; 2]), Fail> {
    let setup = Box::new(alloc, setup(alloc)?)?;
    let mut own = Box::new(alloc, image(alloc)?)?;
    let KillStart::One(mut part) = begin(&setup, Pid::new(2), target, signal) else {
        return Err("target".into());
    };
    let mut events = [None; 2];
    let mut count: usize = 0;
    for _ in 0..30 {
        if !part.is_finished() {
            let call = part.posted();
            let reply = machine.answer(&call);
            let after = part.after(&mut own, &setup, &reply);
            if after.event.is_some() && count < 2 {
                events[count] = after.event;
                count += 1;
            }
        }
    }
    if !part.is_finished() || own.dat.len() != 64 {
        return Err("not done".into());
    }
    Ok((own.dat.word(0), own.dat.word(32), events))
}

fn event(target: u32, signal: u32, answer: Answer) -> Option<Event> {
    let by = Acting::process(Pid::new(2));
    Some(Event::Kill(
        by,
        Number::unsigned(target),
        Number::unsigned(signal),
        answer,
    ))
}

#[test]
fn a_check_answers_by_the_main_word_alone(rt: HostRuntime) -> Result<(), Fail> {
    let mut runs = machine_with(RUNS);
    assert_eq!(rt;
        kill(rt.alloc(), &mut runs, 3, 0)?,
        (0, 1, [event(3, 0, Answer::Zero), None])
    );
    assert_eq!(rt; (runs.turns, runs.word(4)), (1, RUNS));
    let mut zombie = machine_with(ZOMBIE);
    assert_eq!(rt;
        kill(rt.alloc(), &mut zombie, 3, 0)?,
        (0, 1, [event(3, 0, Answer::Zero), None])
    );
    let absent = event(4, 0, Answer::Error(Errno::ESRCH));
    assert_eq!(rt;
        kill(rt.alloc(), &mut runs, 4, 0)?,
        (4294967293, 1, [absent, None])
    );
    Ok(())
}

#[test]
fn a_signal_is_posted_and_its_target_woken(rt: HostRuntime) -> Result<(), Fail> {
    let mut runs = machine_with(RUNS);
    assert_eq!(rt;
        kill(rt.alloc(), &mut runs, 3, 15)?,
        (0, 1, [event(3, 15, Answer::Zero), None])
    );
    assert_eq!(rt; (runs.word(4), runs.puts), (RUNS_TERM, 1));
    let mut zombie = machine_with(ZOMBIE);
    assert_eq!(rt;
        kill(rt.alloc(), &mut zombie, 3, 15)?,
        (0, 1, [event(3, 15, Answer::Zero), None])
    );
    assert_eq!(rt; (zombie.word(4), zombie.puts, zombie.turns), (ZOMBIE, 0, 1));
    let absent = event(4, 15, Answer::Error(Errno::ESRCH));
    assert_eq!(rt;
        kill(rt.alloc(), &mut runs, 4, 15)?,
        (4294967293, 1, [absent, None])
    );
    Ok(())
}

#[test]
fn a_continue_of_a_stopped_process_tells_its_parent(rt: HostRuntime) -> Result<(), Fail> {
    let mut stopped = machine_with(STOPPED);
    let notice = Some(Event::Notify(Acting::process(Pid::new(2))));
    assert_eq!(rt;
        kill(rt.alloc(), &mut stopped, 3, 18)?,
        (0, 1, [event(3, 18, Answer::Zero), notice])
    );
    assert_eq!(rt; stopped.puts, 1);
    Ok(())
}

#[test]
fn bad_numbers_and_absent_rows_are_refused_at_once(rt: HostRuntime) -> Result<(), Fail> {
    let setup = Box::new(rt.alloc(), setup(rt.alloc())?)?;
    let by = Pid::new(2);
    let invalid = KillStart::Refused(Errno::EINVAL);
    let absent = KillStart::Refused(Errno::ESRCH);
    assert_eq!(rt; begin(&setup, by, 3, 32), invalid);
    assert_eq!(rt; begin(&setup, by, 3, -1), invalid);
    assert_eq!(rt; begin(&setup, by, -1, 0), invalid);
    assert_eq!(rt; begin(&setup, by, 1, 0), absent);
    assert_eq!(rt; begin(&setup, by, 5, 31), absent);
    assert_eq!(rt; begin(&setup, by, i32::MAX, 0), absent);
    assert_eq!(rt; begin(&setup, by, 0, 9), KillStart::Group);
    assert_eq!(rt; begin(&setup, by, -2, 0), KillStart::Group);
    let one = KillOne::new(by, RowNo::new(3), Some(Signal::new(31)));
    assert_eq!(rt; begin(&setup, by, 4, 31), KillStart::One(one));
    Ok(())
}
