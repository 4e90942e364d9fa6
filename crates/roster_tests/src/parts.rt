//! The parts that work on the words of rows, each on a machine of two processes, of which the other one or the host
//! changes a word meanwhile.

ghost use Rattle.std.specs.Prelude.{◌≡◌, ◌<◌, false};
ghost use Rattle.roster.specs.Post.{post_rank};

use cyg_script::read_script;
use machine_stage::Step::{Says, Stores, Waits};
use machine_stage::{Stage, Step, TWO_SLOTS, handle, handles};
use roster::{Claim, Hold, Let, Orphaned, Post, Posted, Poster, Scan, Signal, Wake};
use script_spec::Script;
use std::alloc::AllocGlobal;
use std::process::Abort;
use std::test::Fail;
use w32_base::{Acting, Answer, Call, Event, Number, Own, Part, Pid, Reply, RowNo, WinNo};

/// Image 3 runs; the same with INT pending, with TERM pending, with both.
const RUNS: u64 = 2251806256136192;

const RUNS_INT: u64 = 2251806256136194;

const RUNS_TERM: u64 = 2251806256152576;

const RUNS_INT_TERM: u64 = 2251806256152578;

/// Image 2 is stopped by STOP, which wasn't told; it was continued, which wasn't told; it exited with 7.
const STOPPED: u64 = 1381479189990866944;

const CONTINUED: u64 = 20266202618265600;

const ZOMBIE: u64 = 4503603922337799;

/// Image 2 runs, with CHLD pending.
const FIRST_CHLD: u64 = 2251804108718080;

const HELD: u64 = 1125899906842624;

const GONE: u64 = 5629499534213120;

/// Parent 2, group 3, session 2.
const SECOND: u64 = 68753043458;

/// Row 1 is that of process 2 in slot 1, and row 2 that of process 3 in slot 2. Each has the event of its main thread
/// as handle 4, and its wake pipe as handles 6 and 7.
#[derive(Drop)]
struct Scene {
    stage: Stage,
    script: Script,
    own: Own,
}

/// What some turns of a part came to.
#[derive(Clone, Copy)]
struct Came {
    finished: bool,
    event: Option<Event>,
}

impl Scene {
    /// A part of a main thread takes so many turns, or fewer where it is done or its call isn't ready.
    fn run<P: Part>(&mut self, slot: u8, part: &mut P, turns: u32) -> Came
        requires { 0 < P.rank part.old }
        ensures { result.finished ≡ false → 0 < P.rank part.new }
    {
        let mut event = None;
        for _ in 0..turns {
            let Some(reply) = self.stage.call(slot, 0, part.posted()) else {
                break;
            };
            let after = part.after(&mut self.own, &self.script.setup, &reply);
            if after.event.is_some() {
                event = after.event;
            }
            if after.finished {
                return Came {
                    finished: true,
                    event,
                };
            }
        }
        Came {
            finished: false,
            event,
        }
    }

    /// Takes steps one after another, up to the first one of which something else comes, and answers its place.
    fn try_steps(&mut self, steps: &[Step]) -> Option<usize> {
        self.stage.try_steps(steps)
    }

    /// Takes a step, and answers whether that came of it.
    fn goes(&mut self, step: &Step) -> bool {
        self.stage.goes(step)
    }
}

/// The word at a place of the section is this one.
fn has(place: u32, word: u64) -> Step {
    Says(0, Call::Load(handle(1), place), Reply::Word(word))
}

/// The machine with both processes and both rows. Process 2 makes process 3 in slot 2, which has handles on the section,
/// the mutex, the terminal and its event.
fn open_scene<R: AllocGlobal + Abort>(rt: &R) -> Result<Box<Scene>, Fail> {
    let opened = Scene {
        stage: Stage::open(rt.alloc(), TWO_SLOTS)?,
        script: read_script(rt.alloc(), TWO_SLOTS)?,
        own: Own::new(rt.alloc())?,
    };
    let mut scene = Box::new(rt.alloc(), opened)?;
    let made = Reply::Made(handle(5), WinNo::new(3));
    let steps = [
        Says(1, Call::Event(false, false), Reply::Handle(handle(4))),
        Says(1, Call::Create(0, handles(&[1, 2, 3, 4])), made),
        Says(1, Call::Resume(handle(5), 0), Reply::Count(1)),
        Says(1, Call::Pipe, Reply::Two(handle(6), handle(7))),
        Says(2, Call::Event(false, false), Reply::Handle(handle(5))),
        Says(2, Call::Pipe, Reply::Two(handle(6), handle(7))),
        Stores(0, 2),
        Stores(4, RUNS),
        Stores(5, SECOND),
    ];
    assert_eq!(rt; scene.try_steps(&steps), None);
    Ok(scene)
}

/// A row.
fn row(number: u16) -> RowNo {
    match RowNo::try_new(number) {
        Some(row) => row,
        None => RowNo::new(1),
    }
}

#[test]
fn two_claims_at_a_time_hold_two_rows(rt: HostRuntime) -> Result<(), Fail> {
    let mut scene = open_scene(&rt)?;
    let mut first = Claim::new();
    let mut second = Claim::new();
    let came = scene.run(1, &mut first, 1);
    assert!(rt; !came.finished);
    assert!(rt; scene.run(2, &mut second, 9).finished);
    assert_eq!(rt; second.answer(), Some(row(4)));
    if !came.finished {
        assert!(rt; scene.run(1, &mut first, 9).finished);
    }
    assert_eq!(rt; first.answer(), Some(row(3)));
    let steps = [has(7, HELD), has(10, HELD), has(0, 4)];
    assert_eq!(rt; scene.try_steps(&steps), None);
    Ok(())
}

#[test]
fn a_claim_finds_that_each_row_was_claimed(rt: HostRuntime) -> Result<(), Fail> {
    let mut scene = open_scene(&rt)?;
    assert!(rt; scene.goes(&Stores(0, 4)));
    let mut claim = Claim::new();
    assert!(rt; scene.run(1, &mut claim, 1).finished);
    assert_eq!(rt; claim, Claim::NoRow);
    assert_eq!(rt; claim.answer(), None);
    assert!(rt; scene.goes(&has(0, 5)));
    Ok(())
}

#[test]
fn a_claim_rests_where_another_holds_its_row(rt: HostRuntime) -> Result<(), Fail> {
    let mut scene = open_scene(&rt)?;
    let mut claim = Claim::new();
    let came = scene.run(1, &mut claim, 2);
    assert_eq!(rt; claim, Claim::Holding(row(3), 0, HELD));
    assert!(rt; scene.goes(&Stores(7, HELD)));
    if !came.finished {
        assert!(rt; !scene.run(1, &mut claim, 9).finished);
    }
    assert_eq!(rt; claim, Claim::Rest);
    assert!(rt; scene.goes(&has(7, HELD)));
    Ok(())
}

#[test]
fn the_roster_mutex_goes_from_one_to_the_other(rt: HostRuntime) -> Result<(), Fail> {
    let mut scene = open_scene(&rt)?;
    let mut first = Hold::new();
    let mut second = Hold::new();
    assert!(rt; scene.run(1, &mut first, 1).finished);
    let came = scene.run(2, &mut second, 1);
    assert_eq!(rt; second, Hold::Waiting);
    assert!(rt; scene.run(1, &mut Let::new(), 1).finished);
    if !came.finished {
        assert!(rt; scene.run(2, &mut second, 1).finished);
    }
    assert_eq!(rt; second, Hold::Held);
    assert_eq!(rt; scene.stage.end(2), Some(WinNo::new(3)));
    let mut third = Hold::new();
    assert!(rt; scene.run(1, &mut third, 1).finished);
    Ok(())
}

#[test]
fn who_does_not_hold_the_roster_mutex_lets_nothing_go(rt: HostRuntime) -> Result<(), Fail> {
    let mut scene = open_scene(&rt)?;
    assert!(rt; scene.run(1, &mut Hold::new(), 1).finished);
    let mut other = Let::new();
    assert!(rt; !scene.run(2, &mut other, 2).finished);
    assert_eq!(rt; other, Let::Rest);
    assert!(rt; scene.goes(&Waits(2, Call::WaitAny(handles(&[2])))));
    Ok(())
}

#[test]
fn a_look_through_the_rows_finds_each_process(rt: HostRuntime) -> Result<(), Fail> {
    let mut scene = open_scene(&rt)?;
    let steps = [Stores(0, 3), Stores(7, GONE)];
    assert_eq!(rt; scene.try_steps(&steps), None);
    let mut scan = Scan::new(row(4));
    assert!(rt; scene.run(1, &mut scan, 9).finished);
    assert_eq!(rt; scan.row(), Some(row(1)));
    let mut scan = Scan::Looking(row(2), row(3));
    let came = scene.run(1, &mut scan, 1);
    assert!(rt; scene.goes(&Stores(4, ZOMBIE)));
    if !came.finished {
        assert!(rt; scene.run(1, &mut scan, 9).finished);
    }
    assert_eq!(rt; scan.row(), Some(row(2)));
    let mut scan = Scan::Looking(row(3), row(3));
    assert!(rt; scene.run(1, &mut scan, 9).finished);
    assert_eq!(rt; scan, Scan::Past);
    Ok(())
}

#[test]
fn a_group_is_orphaned_when_its_parent_has_ended(rt: HostRuntime) -> Result<(), Fail> {
    let mut scene = open_scene(&rt)?;
    let mut living = Orphaned::new(3, row(4));
    assert!(rt; scene.run(2, &mut living, 20).finished);
    assert_eq!(rt; living.answer(), Some(false));
    let mut dying = Orphaned::new(3, row(4));
    // it counts, looks at two words of both rows, and at the group word of the parent
    let came = scene.run(2, &mut dying, 6);
    assert_eq!(rt; dying.answer(), None);
    assert!(rt; scene.goes(&Stores(1, ZOMBIE)));
    if !came.finished {
        assert!(rt; scene.run(2, &mut dying, 20).finished);
    }
    assert_eq!(rt; dying.answer(), Some(true));
    Ok(())
}

#[test]
fn a_wake_puts_a_byte_and_leaves_no_handle(rt: HostRuntime) -> Result<(), Fail> {
    let mut scene = open_scene(&rt)?;
    let mut wake = Wake::new(Poster::Main(row(1)), row(2));
    if !wake.is_finished() {
        assert!(rt; scene.run(1, &mut wake, 9).finished);
    }
    let steps = [
        Says(2, Call::Get(handle(6)), Reply::Byte(0)),
        Says(2, Call::Get(handle(6)), Reply::Empty),
        Says(1, Call::Event(true, true), Reply::Handle(handle(8))),
    ];
    assert_eq!(rt; scene.try_steps(&steps), None);
    Ok(())
}

#[test]
fn a_wake_of_an_image_that_has_ended_is_done(rt: HostRuntime) -> Result<(), Fail> {
    let mut scene = open_scene(&rt)?;
    let mut wake = Wake::new(Poster::Main(row(1)), row(2));
    if !wake.is_finished() {
        // it has opened the image, which ends then
        let came = scene.run(1, &mut wake, 2);
        assert_eq!(rt; wake, Wake::Copying(handle(8)));
        let _ = scene.stage.end(2);
        if !came.finished {
            assert!(rt; scene.run(1, &mut wake, 9).finished);
        }
    }
    assert!(rt; scene.goes(&Says(1, Call::Event(true, true), Reply::Handle(handle(8)))));
    Ok(())
}

#[test]
fn a_watcher_sets_the_event_of_its_main_thread(rt: HostRuntime) -> Result<(), Fail> {
    let mut scene = open_scene(&rt)?;
    let mut wake = Wake::new(Poster::Watcher(row(1)), row(1));
    if !wake.is_finished() {
        assert!(rt; scene.run(1, &mut wake, 1).finished);
    }
    assert!(rt; scene.goes(&Says(1, Call::WaitAny(handles(&[4])), Reply::Woke(0))));
    Ok(())
}

/// A signal for process 3, by process 2.
fn kill(signal: u8) -> Event {
    Event::Kill(
        Acting::process(Pid::new(2)),
        Number::unsigned(3),
        Number::unsigned(u32::from(signal)),
        Answer::Zero,
    )
}

/// The post of a signal to row 2 by process 2, at its start.
fn post_of(signal: Signal) -> Post
    ensures { 0 < post_rank result }
{
    Post::new(row(2), signal, kill(signal.get()), Poster::Main(row(1)))
}

#[test]
fn a_post_is_one_change_and_then_a_wake(rt: HostRuntime) -> Result<(), Fail> {
    let mut scene = open_scene(&rt)?;
    let mut post = post_of(Signal::new(15));
    let came = scene.run(1, &mut post, 20);
    assert!(rt; came.finished);
    assert_eq!(rt; came.event, Some(kill(15)));
    assert_eq!(rt; post, Post::Finished(Posted::Done));
    let steps = [
        has(4, RUNS_TERM),
        Says(2, Call::Get(handle(6)), Reply::Byte(0)),
    ];
    assert_eq!(rt; scene.try_steps(&steps), None);
    Ok(())
}

#[test]
fn a_post_tries_again_with_the_word_that_it_finds(rt: HostRuntime) -> Result<(), Fail> {
    let mut scene = open_scene(&rt)?;
    let mut post = post_of(Signal::new(15));
    let came = scene.run(1, &mut post, 1);
    let interrupt = Call::CompareExchange(handle(1), 4, RUNS, RUNS_INT);
    assert!(rt; scene.goes(&Says(2, interrupt, Reply::Word(RUNS))));
    if !came.finished {
        let lost = scene.run(1, &mut post, 1);
        assert_eq!(rt; lost.event, None);
        assert!(rt; scene.goes(&has(4, RUNS_INT)));
        if !lost.finished {
            assert_eq!(rt; scene.run(1, &mut post, 20).event, Some(kill(15)));
        }
    }
    assert_eq!(rt; post, Post::Finished(Posted::Done));
    assert!(rt; scene.goes(&has(4, RUNS_INT_TERM)));
    Ok(())
}

#[test]
fn a_post_to_a_process_that_dies_meanwhile_does_nothing(rt: HostRuntime) -> Result<(), Fail> {
    let mut scene = open_scene(&rt)?;
    let mut post = post_of(Signal::new(15));
    let came = scene.run(1, &mut post, 1);
    assert!(rt; scene.goes(&Stores(4, ZOMBIE)));
    if !came.finished {
        let came = scene.run(1, &mut post, 20);
        assert!(rt; came.finished);
        assert_eq!(rt; came.event, None);
    }
    assert_eq!(rt; post, Post::Finished(Posted::Died));
    let steps = [has(4, ZOMBIE), Says(2, Call::Get(handle(6)), Reply::Empty)];
    assert_eq!(rt; scene.try_steps(&steps), None);
    Ok(())
}

#[test]
fn who_continues_a_process_tells_its_parent(rt: HostRuntime) -> Result<(), Fail> {
    let mut scene = open_scene(&rt)?;
    assert!(rt; scene.goes(&Stores(4, STOPPED)));
    let mut post = post_of(Signal::new(18));
    let came = scene.run(1, &mut post, 30);
    assert!(rt; came.finished);
    assert_eq!(rt;
        came.event,
        Some(Event::Notify(Acting::process(Pid::new(2))))
    );
    assert_eq!(rt; post, Post::Finished(Posted::Done));
    let steps = [has(4, CONTINUED), has(1, FIRST_CHLD)];
    assert_eq!(rt; scene.try_steps(&steps), None);
    Ok(())
}
