//! A run of a world by its script's schedule.

ghost use Rattle.std.specs.Prelude.{◌≡◌, ◌+◌, ◌<◌, ◌≤◌, [], ◌∷◌, length, List, IsTrue, MatchOption, MatchBool};
ghost use Rattle.script_spec.specs.Ranges.{is_line_within};
ghost use Rattle.script_spec.specs.declared.script.ScheduleLine.{ScheduleLine};
ghost use Rattle.script_spec.specs.declared.script.ScheduleLine.TheVariants.{Given, Steps, Settle};
ghost use Rattle.w32_base.specs.declared.entry.Directive.TheVariants as directive;
ghost use Rattle.layer_spec.specs.Headline.{IsJournalOf};
ghost use Rattle.w32_machine.specs.Contract.{keys_of, keys_of_line, key_lines};
ghost use Rattle.world_spec.specs.SeenStep.{IsTaken};
ghost use Rattle.layer_world.specs.Scheduled.{IsAt, IsSpent};
ghost use Rattle.layer_world.specs.World.{keys_entered, Directed};

use crate::world::World;
use script_spec::{ScheduleLine, Script};
use w32_base::{Directive, End, Outcome, Slot, ThreadNo};
use world_spec::RelyGuarantee;

impl<P: RelyGuarantee + Drop> World<P> {
    // Gives a turn to a thread.
    fn give_turn(&mut self, next: (Slot, ThreadNo)) -> Outcome
        requires { length self.old.entries < self.old.script.setup.limits.budget }
        ensures { Directed P.posted_of P.goes P.opening P.slot_of P.thread_of P.clause self.old
            (directive.Turn next.0 next.1) result self.new }
    {
        self.direct(Directive::Turn(next.0, next.1))
    }

    // Gives turns by the round rule until no thread is ready, and answers the thread of the last one; or none where no
    // entry is spare while some thread is ready.
    fn settle(&mut self, last: (Slot, ThreadNo)) -> Option<(Slot, ThreadNo)>
        ensures lines { (lines : List ScheduleLine)
            → IsAt P.posted_of P.goes P.opening P.slot_of P.thread_of P.clause self.old (Settle ∷ lines) last.0 last.1
            → MatchOption result
            (IsSpent P.posted_of P.goes P.opening P.slot_of P.thread_of P.clause self.new)
            (λ next. IsAt P.posted_of P.goes P.opening P.slot_of P.thread_of P.clause self.new lines next.0 next.1) }
        ensures script { self.new.script ≡ self.old.script }
    {
        let mut last = (last.0, last.1);
        for _ in 0..self.spare() {
            let Some(next) = self.next_ready((last.0, last.1)) else {
                return Some((last.0, last.1));
            };
            self.give_turn((next.0, next.1));
            last = (next.0, next.1);
        }
        if self.quiet() {
            Some((last.0, last.1))
        } else {
            None
        }
    }

    // Gives so many turns by the round rule, or fewer where no thread is ready any more, and answers the thread of the
    // last one; or none where no entry is spare while some thread is ready.
    fn take_steps(&mut self, turns: u32, last: (Slot, ThreadNo)) -> Option<(Slot, ThreadNo)>
        ensures lines { (lines : List ScheduleLine)
            → IsAt P.posted_of P.goes P.opening P.slot_of P.thread_of P.clause self.old (Steps turns ∷ lines)
            last.0 last.1
            → MatchOption result
            (IsSpent P.posted_of P.goes P.opening P.slot_of P.thread_of P.clause self.new)
            (λ next. IsAt P.posted_of P.goes P.opening P.slot_of P.thread_of P.clause self.new lines next.0 next.1) }
        ensures script { self.new.script ≡ self.old.script }
    {
        let mut last = (last.0, last.1);
        for _ in 0..turns {
            let Some(next) = self.next_ready((last.0, last.1)) else {
                return Some((last.0, last.1));
            };
            if self.spare() == 0 {
                return None;
            }
            self.give_turn((next.0, next.1));
            last = (next.0, next.1);
        }
        Some((last.0, last.1))
    }

    // Carries out a directive of the script's own, where an entry is spare, and answers whether it was.
    fn give(&mut self, d: Directive) -> bool
        requires taken { IsTaken d }
        requires keys { keys_of d + keys_entered self.old.entries ≤ key_lines self.old.script.directives }
        ensures lines { (lines : List ScheduleLine) → (slot : _) → (thread : _)
            → IsAt P.posted_of P.goes P.opening P.slot_of P.thread_of P.clause self.old (Given d ∷ lines) slot thread
            → MatchBool result
            (IsAt P.posted_of P.goes P.opening P.slot_of P.thread_of P.clause self.new lines slot thread)
            (IsSpent P.posted_of P.goes P.opening P.slot_of P.thread_of P.clause self.new) }
        ensures script { self.new.script ≡ self.old.script }
    {
        if self.spare() == 0 {
            return false;
        }
        self.direct(d);
        true
    }

    // Carries out a line of the schedule, and answers the thread of the last turn by the round rule; or none where no
    // entry is spare while work remains.
    fn carry_line(&mut self, line: ScheduleLine, last: (Slot, ThreadNo)) -> Option<(Slot, ThreadNo)>
        requires within { IsTrue (is_line_within self.old.script.setup.limits.slots line) }
        requires keys { keys_of_line line + keys_entered self.old.entries ≤ key_lines self.old.script.directives }
        ensures lines { (lines : List ScheduleLine)
            → IsAt P.posted_of P.goes P.opening P.slot_of P.thread_of P.clause self.old (line ∷ lines) last.0 last.1
            → MatchOption result
            (IsSpent P.posted_of P.goes P.opening P.slot_of P.thread_of P.clause self.new)
            (λ next. IsAt P.posted_of P.goes P.opening P.slot_of P.thread_of P.clause self.new lines next.0 next.1) }
        ensures script { self.new.script ≡ self.old.script }
    {
        match line {
            ScheduleLine::Given(d) => {
                if self.give(d) {
                    Some((last.0, last.1))
                } else {
                    None
                }
            }
            ScheduleLine::Steps(turns) => self.take_steps(turns, (last.0, last.1)),
            ScheduleLine::Settle => self.settle((last.0, last.1)),
        }
    }

    // How a run ends that has no line left.
    fn end_of_lines(&self) -> End
        ensures { (slot : _) → (thread : _)
            → IsAt P.posted_of P.goes P.opening P.slot_of P.thread_of P.clause self.now [] slot thread
            → IsJournalOf P.posted_of P.goes P.opening P.slot_of P.thread_of self.now.script self.now.entries result }
    {
        let _spare = self.spare();
        if self.quiet() { End::Quiet } else { End::Given }
    }

    /// Runs the script from whose opening the world comes, by its schedule, and answers how the run ended. It takes no
    /// memory.
    pub fn run_script(&mut self, script: &Script) -> End
        requires script { script.now ≡ self.old.script }
        requires none { self.old.entries ≡ [] }
        ensures journal { IsJournalOf P.posted_of P.goes P.opening P.slot_of P.thread_of self.new.script
            self.new.entries result }
        ensures script { self.new.script ≡ self.old.script }
    {
        let mut last = self.before_the_first();
        for line in script.directives.as_slice() {
            let Some(next) = self.carry_line(*line, (last.0, last.1)) else {
                return End::Budget;
            };
            last = (next.0, next.1);
        }
        self.end_of_lines()
    }
}
