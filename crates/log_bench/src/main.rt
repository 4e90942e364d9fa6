//! Writes the log of a journal of one entry again and again, in view `all`. The argument is how many entries to write;
//! without one it is 3.
#![tactic(auto)]

use anyhow::{Result, bail};
use cyg_io::StdSink;
use log_text::write_log;
use script_spec::{Lines, Occupied, ScheduleLine, Script};
use std::alloc::{AllocError, Global};
use std::env;
use std::io::{self, BufWriter, Write};
use w32_base::{
    Acting, Call, Code, Death, Directive, End, Entry, Event, HandleNo, Instr, Limits, Modules,
    Name, Number, Outcome, Program, Programs, Reply, Setup, Slot, ThreadNo, View,
};

/// How many entries to write, where no argument says it.
const ENTRIES: u32 = 3;

/// The entry in which process 2 exits.
fn entry() -> Entry {
    Entry {
        directive: Directive::Turn(Slot::new(1), ThreadNo::new(0)),
        call: Some(Call::CompareExchange(HandleNo::new(1), 1, 5, 0)),
        outcome: Outcome::Step(Reply::Word(5)),
        event: Some(Event::Die(
            Acting::try_new(2).unwrap_or(Acting::host()),
            Number::unsigned(0),
            Death::Exit,
        )),
    }
}

/// A script of one program with this name.
fn script(alloc: Global, name: Name) -> Result<Script, AllocError> {
    let program = Program {
        name,
        heap: 0,
        stack: 64,
        code: Code::from_vec(vec![in alloc; Instr::GetPid]?),
    };
    Ok(Script {
        setup: Setup {
            limits: Limits {
                slots: 1,
                rows: 1,
                budget: 500_000,
            },
            modules: Modules::from_vec(Vec::new(alloc)),
            programs: Programs::from_vec(vec![in alloc; program]?),
        },
        occupied: Occupied::from_vec(Vec::new(alloc)),
        directives: Lines::from_vec(vec![in alloc; ScheduleLine::Settle]?),
    })
}

fn main(rt: HostRuntime) -> Result<()> {
    let count = match env::args(&rt)?.nth(1) {
        Some(word) => word.as_str().parse::<u32>()?,
        None => ENTRIES,
    };
    let Some(name) = Name::try_new(b"main") else {
        bail!("no name");
    };
    let script = script(rt.alloc(), name)?;
    let entries = vec![in rt.alloc(); entry(); count as usize]?;
    let mut out = BufWriter::new(rt.alloc(), io::writer(&rt))?;
    let mut sink = StdSink::new(&mut out);
    if write_log(
        &script,
        entries.as_slice(),
        End::Given,
        View::All,
        &mut sink,
    )
    .is_err()
    {
        bail!("standard output had a fault");
    }
    out.flush()?;
    Ok(())
}
