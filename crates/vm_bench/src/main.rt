//! Runs blocks of a fixed loop program on a heap of 32,768 bytes, and prints how many instructions they were and a
//! checksum of the memory. The argument is how many blocks to run; without one it is 4.
#![tactic(auto)]

ghost use Rattle.std.specs.Prelude.{◌≡◌, length};

mod looping;

use anyhow::Result;
use looping::{loop_memory, loop_program};
use proc_vm::{Next, next_instr, run_block};
use std::env;
use w32_base::{Own, Program};

/// How many blocks to run where no argument says it.
const BLOCKS: u32 = 4;

/// Runs so many blocks, or fewer where the next instruction isn't local, and answers how many instructions they were.
fn run_blocks(own: &mut Own, p: &Program, blocks: u32) -> u64
    requires { length own.old.dat ≡ 64 }
{
    let mut done: u64 = 0;
    for _ in 0..blocks {
        match next_instr(own, p) {
            Next::Local => done = done.saturating_add(u64::from(run_block(own, p))),
            _ => return done,
        }
    }
    done
}

/// A number that changes with each byte.
fn checksum(bytes: &[u8]) -> u32 {
    bytes.iter().fold(
        0u32,
        |sum, byte| sum.wrapping_mul(31).wrapping_add(u32::from(*byte)),
    )
}

fn main(rt: HostRuntime) -> Result<()> {
    let blocks = match env::args(&rt)?.nth(1) {
        Some(word) => word.as_str().parse::<u32>()?,
        None => BLOCKS,
    };
    let p = loop_program(rt.alloc())?;
    let mut own = loop_memory(rt.alloc())?;
    let done = run_blocks(&mut own, &p, blocks);
    println!(rt; "instructions {done}")?;
    println!(rt; "data {}", checksum(own.dat.as_slice()))?;
    println!(rt; "heap {}", checksum(own.heap.as_slice()))?;
    println!(rt; "stack {}", checksum(own.stack.as_slice()))?;
    Ok(())
}
