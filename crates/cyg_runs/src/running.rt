//! Runs of a script on a world.

ghost use Rattle.std.specs.Prelude.{IfOk};
ghost use Rattle.script_spec.specs.Validity.{IsValid};
ghost use Rattle.layer_spec.specs.Headline.{IsJournalOf};

use layer_world::World;
use script_spec::Script;
use std::alloc::Global;
use w32_base::{End, Journal, Memory};
use world_spec::RelyGuarantee;

/// The journal of a run, and how it ended.
#[derive(Drop)]
pub struct Finished {
    /// The entries.
    pub journal: Journal,
    /// How the run ended.
    pub end: End,
}

/// Runs a script by its schedule, on a world whose threads have these parts. All memory is taken before the first
/// directive. It fails only for want of it.
pub fn run_world<P: RelyGuarantee + Drop>(
    alloc: Global,
    script: &Script,
) -> Result<Finished, Memory>
    requires valid { IsValid script.now }
    requires serves { P.serves script.now }
    ensures { IfOk result (λ run. IsJournalOf P.posted_of P.goes P.opening P.slot_of P.thread_of script.now run.journal
        run.end) }
{
    let mut world = World::<P>::open(alloc, script)?;
    let end = world.run_script(script);
    Ok(Finished {
        journal: world.into_journal(),
        end,
    })
}
