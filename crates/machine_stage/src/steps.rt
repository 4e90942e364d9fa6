//! Trials of a machine: steps, each with what is to come of it.

use crate::stage::{Stage, handle};
use w32_base::{Call, HandleList, Reply, TtyOp, WinNo};

/// A step of a trial, with what is to come of it.
#[derive(Clone, Copy)]
pub enum Step {
    /// The main thread of a slot posts a call and takes a turn, with this reply.
    Says(u8, Call, Reply),
    /// The main thread of a slot posts a call, and isn't ready.
    Waits(u8, Call),
    /// A thread of a slot posts a call and takes a turn: the reply, or none where it isn't ready.
    Turns(u8, u8, Call, Option<Reply>),
    /// Process 2 makes process 3 in slot 2, with these handles, as its own handle of this number, and lets it run.
    Makes(u8, HandleList),
    /// The process in a slot ends from outside: its number, or none where the slot is empty.
    Ends(u8, Option<WinNo>),
    /// The heap of the process in a slot has this byte at a place.
    Holds(u8, usize, u8),
    /// The host puts a word at a place of the section.
    Stores(u32, u64),
    /// The console takes so many keys, none of which is for a signal.
    Types(u16),
}

impl Stage {
    /// Takes steps one after another, up to the first one of which something else comes, and answers its place.
    pub fn try_steps(&mut self, steps: &[Step]) -> Option<usize> {
        for place in 0..steps.len() {
            if !self.goes(&steps[place]) {
                return Some(place);
            }
        }
        None
    }

    /// Takes a step, and answers whether that came of it.
    pub fn goes(&mut self, step: &Step) -> bool {
        match step {
            Step::Says(slot, call, reply) => self.call(*slot, 0, *call) == Some(*reply),
            Step::Waits(slot, call) => self.call(*slot, 0, *call).is_none(),
            Step::Turns(slot, thread, call, reply) => self.call(*slot, *thread, *call) == *reply,
            Step::Makes(number, listed) => self.makes(*number, *listed),
            Step::Ends(slot, ended) => self.end(*slot) == *ended,
            Step::Holds(slot, place, b) => self.heap_byte(*slot, *place) == Some(*b),
            Step::Stores(place, word) => self.stores(*place, *word),
            Step::Types(count) => self.types(*count),
        }
    }

    // Process 2 makes process 3 in slot 2, and lets it run.
    fn makes(&mut self, number: u8, listed: HandleList) -> bool {
        let made = Reply::Made(handle(number), WinNo::new(3));
        if self.call(1, 0, Call::Create(0, listed)) != Some(made) {
            return false;
        }
        self.call(1, 0, Call::Resume(handle(number), 0)) == Some(Reply::Count(1))
    }

    // The host puts a word at a place of the section.
    fn stores(&mut self, place: u32, word: u64) -> bool {
        let Some(Reply::Word(old)) = self.call(0, 0, Call::Load(handle(1), place)) else {
            return false;
        };
        let exchange = Call::CompareExchange(handle(1), place, old, word);
        self.call(0, 0, exchange) == Some(Reply::Word(old))
    }

    // The console takes so many keys, none of which is for a signal.
    fn types(&mut self, count: u16) -> bool {
        for _ in 0..count {
            let Some(Reply::Key(_, 0, _)) = self.call(0, 0, Call::Tty(handle(3), TtyOp::Key)) else {
                return false;
            };
        }
        true
    }
}
