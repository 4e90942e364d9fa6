//! What comes of an example.

use cyg_cli::{MemSink, MemSource, run_top};
use std::alloc::{AllocError, Global};

/// How many bytes the output of an example has at the most.
const MOST_OUTPUT: usize = 262_144;

/// How a call of the program ended, and what it wrote.
#[derive(Debug, Drop)]
pub struct Outcome {
    /// The status.
    pub status: u8,
    /// What was written.
    pub output: Vec<u8>,
}

impl Outcome {
    /// Whether both are the same.
    pub fn is(&self, other: &Outcome) -> bool {
        self.status == other.status && self.output.as_slice() == other.output.as_slice()
    }
}

/// What comes of these words with this script as input. It fails only for want of memory.
pub fn outcome_of(alloc: Global, words: &[&str], script: Vec<u8>) -> Result<Outcome, AllocError> {
    let mut list = Vec::new(alloc);
    for word in words {
        list.push(String::from_str(alloc, word)?)?;
    }
    let mut src = MemSource::new(script, Vec::new(alloc));
    let mut sink = MemSink::new(alloc, MOST_OUTPUT, Vec::new(alloc))?;
    let answer = run_top(alloc, &list, &mut src, &mut sink);
    Ok(Outcome {
        status: answer.status.get(),
        output: sink.contents().to_vec(alloc)?,
    })
}
