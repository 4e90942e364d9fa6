//! Each part through its steps, over the words of four rows and one other process's wake pipe.

ghost use Rattle.std.specs.Prelude.{◌<◌, ◌≤◌};

use roster::{Claim, Hold, Let, Orphaned, Post, Posted, Poster, Scan, Signal};
use std::alloc::Global;
use std::test::Fail;
use w32_base::{
    Acting, After, Answer, Call, Code, Event, HandleNo, Instr, Limits, Memory, Modules, Name,
    Number, Own, Part, Pid, Program, Programs, Reply, RowNo, Setup, WinNo,
};

/// Image 2 runs; the same with INT pending, with TERM pending, with both, with CHLD pending.
const RUNS: u64 = 2251804108652544;

const RUNS_INT: u64 = 2251804108652546;

const RUNS_TERM: u64 = 2251804108668928;

const RUNS_INT_TERM: u64 = 2251804108668930;

const RUNS_CHLD: u64 = 2251804108718080;
/// Image 2 is stopped by STOP, which wasn't told; after a continue, which wasn't told.
const STOPPED: u64 = 1381479189990866944;

const CONTINUED: u64 = 20266202618265600;
/// Image 2 exited with 7.
const ZOMBIE: u64 = 4503603922337799;

const HELD: u64 = 1125899906842624;

const GONE: u64 = 5629499534213120;
/// Parent 1, group 2, session 2; parent 2, group 3, session 2; parent 2, group 3, session 3.
const FIRST: u64 = 68753039361;

const SECOND: u64 = 68753043458;

const OTHER_SESSION: u64 = 68769820674;

/// The machine, as far as these parts see it.
#[derive(Drop)]
struct Machine {
    words: [u64; 13],
    /// A word that another thread stores before the next compare-exchange.
    meanwhile: Option<(u32, u64)>,
    /// What `open` answers.
    opened: Reply,
    puts: u32,
    sets: u32,
    closes: u32,
    turns: u32,
}

fn machine_with(words: [u64; 13]) -> Machine {
    Machine {
        words,
        meanwhile: None,
        opened: Reply::Handle(HandleNo::new(9)),
        puts: 0,
        sets: 0,
        closes: 0,
        turns: 0,
    }
}

impl Machine {
    fn word(&self, place: u32) -> u64 {
        match self.words.get(place as usize) {
            Some(word) => *word,
            None => 0,
        }
    }

    fn store(&mut self, place: u32, word: u64) {
        if let Some(old) = self.words.get_mut(place as usize) {
            *old = word;
        }
    }

    fn exchange(&mut self, place: u32, old: u64, new: u64) -> Reply {
        if let Some((other, word)) = self.meanwhile {
            self.store(other, word);
            self.meanwhile = None;
        }
        let found = self.word(place);
        if found == old {
            self.store(place, new);
        }
        Reply::Word(found)
    }

    fn answer(&mut self, call: &Call) -> Reply {
        self.turns = self.turns.wrapping_add(1);
        match call {
            Call::Load(_, place) => Reply::Word(self.word(*place)),
            Call::CompareExchange(_, place, old, new) => self.exchange(*place, *old, *new),
            Call::FetchAdd(_, place, n) => {
                let found = self.word(*place);
                self.store(*place, found.wrapping_add(*n));
                Reply::Word(found)
            }
            Call::WaitAny(_) => Reply::Woke(0),
            Call::Open(_) => self.opened,
            Call::Dup(_, _) => Reply::Handle(HandleNo::new(10)),
            Call::Put(_, _) => {
                self.puts = self.puts.wrapping_add(1);
                Reply::Done
            }
            Call::Set(_) => {
                self.sets = self.sets.wrapping_add(1);
                Reply::Done
            }
            Call::Close(_) => {
                self.closes = self.closes.wrapping_add(1);
                Reply::Done
            }
            _ => Reply::Done,
        }
    }
}

/// What all processes know, with so many rows.
fn setup(alloc: Global, rows: u16) -> Result<Setup, Fail>
    requires { (1 ≤ rows) × (rows ≤ 4000) }
{
    let code = Code::from_vec(vec![in alloc; Instr::GetPid]?);
    let program = Program {
        name: Name::try_new(b"main").ok_or("name")?,
        heap: 0,
        stack: 64,
        code,
    };
    Ok(Setup {
        limits: Limits {
            slots: 2,
            rows,
            budget: 1,
        },
        modules: Modules::from_vec(Vec::new(alloc)),
        programs: Programs::from_vec(vec![in alloc; program]?),
    })
}

/// One turn of a part that isn't done.
fn turn<P: Part>(part: &mut P, own: &mut Own, setup: &Setup, machine: &mut Machine) -> After
    requires { 0 < P.rank part.old }
{
    let call = part.posted();
    let reply = machine.answer(&call);
    part.after(own, setup, &reply)
}

fn claim(alloc: Global, rows: u16, machine: &mut Machine) -> Result<Option<RowNo>, Fail>
    requires { (1 ≤ rows) × (rows ≤ 4000) }
{
    let setup = Box::new(alloc, setup(alloc, rows)?)?;
    let mut own = Box::new(alloc, Own::new(alloc)?)?;
    let mut part = Claim::new();
    for _ in 0..9 {
        if !part.is_finished() {
            let _ = turn(&mut part, &mut own, &setup, machine);
        }
    }
    Ok(part.answer())
}

#[test]
fn a_claim_holds_the_next_row(rt: HostRuntime) -> Result<(), Fail> {
    let mut machine = machine_with([1, RUNS, FIRST, 0, 0, 0, 0, 0, 0, 0, 0, 0, 0]);
    assert_eq!(rt; claim(rt.alloc(), 2, &mut machine)?, Some(RowNo::new(2)));
    assert_eq!(rt; machine.word(0), 2);
    assert_eq!(rt; machine.word(4), HELD);
    assert_eq!(rt; machine.turns, 3);
    assert_eq!(rt; claim(rt.alloc(), 2, &mut machine)?, None);
    assert_eq!(rt; machine.word(0), 3);
    assert_eq!(rt; machine.word(7), 0);
    Ok(())
}

#[test]
fn the_roster_mutex_is_taken_and_let_go(rt: HostRuntime) -> Result<(), Fail> {
    let setup = Box::new(rt.alloc(), setup(rt.alloc(), 2)?)?;
    let mut own = Box::new(rt.alloc(), Own::new(rt.alloc())?)?;
    let mut machine = machine_with([0; 13]);
    let mut hold = Hold::new();
    if !hold.is_finished() {
        assert!(rt; turn(&mut hold, &mut own, &setup, &mut machine).finished);
    }
    assert_eq!(rt; hold, Hold::Held);
    let mut abandoned = Hold::new();
    let _ = abandoned.after(&mut own, &setup, &Reply::Abandoned(0));
    assert_eq!(rt; abandoned, Hold::Held);
    let mut free = Let::new();
    if !free.is_finished() {
        assert!(rt; turn(&mut free, &mut own, &setup, &mut machine).finished);
    }
    assert_eq!(rt; free, Let::Released);
    Ok(())
}

/// The processes that a look through the rows finds.
fn found(alloc: Global, machine: &mut Machine) -> Result<[u16; 4], Fail> {
    let setup = Box::new(alloc, setup(alloc, 4)?)?;
    let mut own = Box::new(alloc, Own::new(alloc)?)?;
    let mut part = Scan::new(RowNo::new(4));
    let mut found = [0; 4];
    let mut count: usize = 0;
    for _ in 0..20 {
        if !part.is_finished() {
            let _ = turn(&mut part, &mut own, &setup, machine);
        }
        if let (Some(row), Some(_)) = (part.row(), part.answer()) {
            if count < 4 {
                found[count] = row.get();
                count += 1;
            }
            part = part.next();
        }
    }
    assert_past(part)?;
    Ok(found)
}

fn assert_past(part: Scan) -> Result<(), Fail> {
    if part == Scan::Past {
        Ok(())
    } else {
        Err("not past")?
    }
}

#[test]
fn a_look_finds_each_process_up_to_the_last_row(rt: HostRuntime) -> Result<(), Fail> {
    let words = [
        4, RUNS, FIRST, 0, GONE, SECOND, 0, ZOMBIE, SECOND, 0, STOPPED, SECOND, 0,
    ];
    assert_eq!(rt; found(rt.alloc(), &mut machine_with(words))?, [1, 3, 4, 0]);
    let words = [9, RUNS, FIRST, 0, HELD, 0, 0, 0, 0, 0, RUNS, SECOND, 0];
    assert_eq!(rt; found(rt.alloc(), &mut machine_with(words))?, [1, 4, 0, 0]);
    let words = [2, RUNS, FIRST, 0, RUNS, SECOND, 0, 0, 0, 0, 0, 0, 0];
    assert_eq!(rt; found(rt.alloc(), &mut machine_with(words))?, [1, 2, 0, 0]);
    Ok(())
}

fn orphaned(alloc: Global, group: u16, machine: &mut Machine) -> Result<Option<bool>, Fail> {
    let setup = Box::new(alloc, setup(alloc, 4)?)?;
    let mut own = Box::new(alloc, Own::new(alloc)?)?;
    let mut part = Orphaned::new(group, RowNo::new(4));
    for _ in 0..20 {
        if !part.is_finished() {
            let _ = turn(&mut part, &mut own, &setup, machine);
        }
    }
    Ok(part.answer())
}

#[test]
fn a_group_is_orphaned_without_a_live_parent_outside(rt: HostRuntime) -> Result<(), Fail> {
    let two = [2, RUNS, FIRST, 0, RUNS, SECOND, 0, 0, 0, 0, 0, 0, 0];
    assert_eq!(rt;
        orphaned(rt.alloc(), 3, &mut machine_with(two))?,
        Some(false)
    );
    assert_eq!(rt;
        orphaned(rt.alloc(), 2, &mut machine_with(two))?,
        Some(true)
    );
    assert_eq!(rt;
        orphaned(rt.alloc(), 9, &mut machine_with(two))?,
        Some(true)
    );
    let dead = [2, ZOMBIE, FIRST, 0, RUNS, SECOND, 0, 0, 0, 0, 0, 0, 0];
    assert_eq!(rt;
        orphaned(rt.alloc(), 3, &mut machine_with(dead))?,
        Some(true)
    );
    let apart = [2, RUNS, FIRST, 0, RUNS, OTHER_SESSION, 0, 0, 0, 0, 0, 0, 0];
    assert_eq!(rt;
        orphaned(rt.alloc(), 3, &mut machine_with(apart))?,
        Some(true)
    );
    let zombie = [2, RUNS, FIRST, 0, ZOMBIE, SECOND, 0, 0, 0, 0, 0, 0, 0];
    assert_eq!(rt;
        orphaned(rt.alloc(), 3, &mut machine_with(zombie))?,
        Some(false)
    );
    Ok(())
}

/// TERM for process 3, by process 2.
fn kill(signal: u8) -> Event {
    Event::Kill(
        Acting::process(Pid::new(2)),
        Number::unsigned(3),
        Number::unsigned(u32::from(signal)),
        Answer::Zero,
    )
}

/// What came of a post to row 2, and the first two events.
fn post(
    alloc: Global,
    signal: Signal,
    by: Poster,
    machine: &mut Machine,
) -> Result<(Option<Posted>, [Option<Event>; 2]), Fail> {
    let setup = Box::new(alloc, setup(alloc, 4)?)?;
    let mut own = Box::new(alloc, Own::new(alloc)?)?;
    let mut part = Post::new(RowNo::new(2), signal, kill(signal.get()), by);
    let mut events = [None; 2];
    let mut count: usize = 0;
    for _ in 0..30 {
        if !part.is_finished() {
            let after = turn(&mut part, &mut own, &setup, machine);
            if count < 2 && after.event.is_some() {
                events[count] = after.event;
                count += 1;
            }
        }
    }
    Ok((part.answer(), events))
}

#[test]
fn a_post_is_one_change_and_then_a_wake(rt: HostRuntime) -> Result<(), Fail> {
    let main = Poster::Main(RowNo::new(1));
    let mut two = machine_with([2, RUNS, FIRST, 0, RUNS, SECOND, 0, 0, 0, 0, 0, 0, 0]);
    assert_eq!(rt;
        post(rt.alloc(), Signal::new(15), main, &mut two)?,
        (Some(Posted::Done), [Some(kill(15)), None])
    );
    assert_eq!(rt; two.word(4), RUNS_TERM);
    assert_eq!(rt; (two.puts, two.closes, two.turns), (1, 2, 8));
    let mut raced = machine_with([2, RUNS, FIRST, 0, RUNS, SECOND, 0, 0, 0, 0, 0, 0, 0]);
    raced.meanwhile = Some((4, RUNS_INT));
    assert_eq!(rt;
        post(rt.alloc(), Signal::new(15), main, &mut raced)?,
        (Some(Posted::Done), [Some(kill(15)), None])
    );
    assert_eq!(rt; raced.word(4), RUNS_INT_TERM);
    assert_eq!(rt; (raced.puts, raced.turns), (1, 9));
    let mut died = machine_with([2, RUNS, FIRST, 0, RUNS, SECOND, 0, 0, 0, 0, 0, 0, 0]);
    died.meanwhile = Some((4, ZOMBIE));
    assert_eq!(rt;
        post(rt.alloc(), Signal::new(15), main, &mut died)?,
        (Some(Posted::Died), [None, None])
    );
    assert_eq!(rt; (died.word(4), died.puts), (ZOMBIE, 0));
    let mut gone = machine_with([2, RUNS, FIRST, 0, GONE, SECOND, 0, 0, 0, 0, 0, 0, 0]);
    assert_eq!(rt;
        post(rt.alloc(), Signal::new(15), main, &mut gone)?,
        (Some(Posted::Absent), [None, None])
    );
    Ok(())
}

#[test]
fn who_continues_a_process_tells_its_parent(rt: HostRuntime) -> Result<(), Fail> {
    let notify = Event::Notify(Acting::process(Pid::new(2)));
    let mut two = machine_with([2, RUNS, FIRST, 0, STOPPED, SECOND, 0, 0, 0, 0, 0, 0, 0]);
    let main = Poster::Main(RowNo::new(1));
    assert_eq!(rt;
        post(rt.alloc(), Signal::new(18), main, &mut two)?,
        (Some(Posted::Done), [Some(kill(18)), Some(notify)])
    );
    assert_eq!(rt; (two.word(4), two.word(1)), (CONTINUED, RUNS_CHLD));
    assert_eq!(rt; (two.puts, two.sets), (1, 0));
    let mut console = machine_with([2, RUNS, FIRST, 0, STOPPED, SECOND, 0, 0, 0, 0, 0, 0, 0]);
    assert_eq!(rt;
        post(rt.alloc(), Signal::new(18), Poster::Console, &mut console)?,
        (Some(Posted::Done), [Some(kill(18)), Some(notify)])
    );
    assert_eq!(rt; (console.puts, console.closes), (2, 4));
    let mut orphan = machine_with([2, ZOMBIE, FIRST, 0, STOPPED, SECOND, 0, 0, 0, 0, 0, 0, 0]);
    assert_eq!(rt;
        post(rt.alloc(), Signal::new(18), main, &mut orphan)?,
        (Some(Posted::Done), [Some(kill(18)), None])
    );
    Ok(())
}

#[test]
fn who_has_ended_or_looks_itself_needs_no_byte(rt: HostRuntime) -> Result<(), Fail> {
    let words = [2, RUNS, FIRST, 0, RUNS, SECOND, 0, 0, 0, 0, 0, 0, 0];
    let mut ended = machine_with(words);
    ended.opened = Reply::Unknown;
    let main = Poster::Main(RowNo::new(1));
    assert_eq!(rt;
        post(rt.alloc(), Signal::new(15), main, &mut ended)?,
        (Some(Posted::Done), [Some(kill(15)), None])
    );
    assert_eq!(rt; (ended.puts, ended.closes, ended.turns), (0, 0, 4));
    let mut itself = machine_with(words);
    assert_eq!(rt;
        post(
            rt.alloc(),
            Signal::new(15),
            Poster::Main(RowNo::new(2)),
            &mut itself
        )?,
        (Some(Posted::Done), [Some(kill(15)), None])
    );
    assert_eq!(rt; (itself.puts, itself.sets, itself.turns), (0, 0, 2));
    let mut watcher = machine_with(words);
    assert_eq!(rt;
        post(
            rt.alloc(),
            Signal::new(17),
            Poster::Watcher(RowNo::new(2)),
            &mut watcher
        )?,
        (Some(Posted::Done), [Some(kill(17)), None])
    );
    assert_eq!(rt; (watcher.puts, watcher.sets), (0, 1));
    Ok(())
}
