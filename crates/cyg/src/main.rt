//! The program: it reads a script on standard input, runs it and writes its log on standard output, or says whether a
//! log is that of a run, or makes a script.
#![tactic(auto)]

use clap::{Arg, ArgAction, Command};
use cyg_cli::{StdSink, StdSource, run_top};
use std::alloc::{AllocError, Global};
use std::env;
use std::io::{self, BufWriter, ErrorKind, Write};
use std::process::ExitCode;
use std::rt::Env;

/// The words aren't accepted.
const OTHER_WORDS: u8 = 2;

/// Standard output had a fault.
const WRITE_FAULT: u8 = 5;

/// Memory ran out.
const NO_MEMORY: u8 = 7;

fn main(rt: HostRuntime) -> ExitCode {
    let status = run(&rt);
    if status == OTHER_WORDS {
        print_usage(&rt);
    }
    ExitCode::from(status)
}

// Carries out the command that the words name.
fn run<R: Env + Input + Print + AllocGlobal>(rt: &R) -> u8 {
    match words_of(rt) {
        Ok(words) => match BufWriter::new(rt.alloc(), io::writer(rt)) {
            Ok(mut out) => run_to(rt, &words, &mut out),
            Err(_) => NO_MEMORY,
        },
        Err(error) => {
            if error.kind() == ErrorKind::OutOfMemory {
                NO_MEMORY
            } else {
                OTHER_WORDS
            }
        }
    }
}

// Carries out the command that the words name, and writes what is left in the writer's buffer.
fn run_to<R: Input + AllocGlobal, W: Write>(rt: &R, words: &Vec<String>, out: &mut W) -> u8 {
    let mut src = StdSource::new(rt.reader());
    let mut sink = StdSink::new(&mut *out);
    let status = run_top(rt.alloc(), words, &mut src, &mut sink).status.get();
    match out.flush() {
        Ok(()) => status,
        Err(_) => WRITE_FAULT,
    }
}

// The words after the program's name. It fails where one of them isn't text.
fn words_of<R: Env + AllocGlobal>(rt: &R) -> io::Result<Vec<String>> {
    let mut words = Vec::new(rt.alloc());
    for word in env::args(rt)?.skip(1) {
        words.push(word)?;
    }
    Ok(words)
}

// Says which words are accepted. Where there is no memory for the text, nothing is printed.
fn print_usage<R: Eprint + AllocGlobal>(rt: &R) {
    if let Ok(text) = usage(rt.alloc()) {
        let _ = eprint!(rt; "{text}");
    }
}

fn usage(alloc: Global) -> Result<String, AllocError> {
    let view = Arg::new(alloc, "VIEW")
        .required(true)
        .action(ArgAction::Set);
    let run = Command::new(alloc, "run")
        .about("reads a script on standard input, runs it, and writes its log in a view")
        .arg(view)?;
    let check = Command::new(alloc, "check").about(
        "reads a script, a line == and a log, and says whether the log's events are steps",
    );
    let forks = Arg::new(alloc, "N").required(true).action(ArgAction::Set);
    let make = Command::new(alloc, "make")
        .about("writes the script of N forks, 1 to 500")
        .arg(forks)?;
    let mut command = Command::new(alloc, "cyg")
        .about("runs process programs on a modelled Win32")
        .after_help(
            "The words are `run all`, `run events`, `run calls`, `check`, or `make N` with N from 1 to 500.",
        )
        .subcommand(run)?
        .subcommand(check)?
        .subcommand(make)?;
    command.render_help()
}
