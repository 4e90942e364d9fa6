//! The interface of a part whose steps are proved beside those of all other threads.

ghost use Rattle.std.specs.Prelude.{◌≡◌, ℕ, List, true};
ghost use Rattle.script_spec.specs.Validity.{IsValid};
ghost use Rattle.script_spec.specs.declared.script.Script.{Script};
ghost use Rattle.w32_base.specs.declared.call.Reply.{Reply};
ghost use Rattle.w32_base.specs.declared.own.Own.{Own};
ghost use Rattle.w32_base.specs.declared.part.After.{After};
ghost use Rattle.w32_base.specs.declared.setup.Setup.{Setup};
ghost use Rattle.layer_spec.specs.Moment.{Seen, Moment};
ghost use Rattle.world_spec.specs.Owes.{OwesWorld};
ghost use Rattle.world_spec.specs.Told.{is_told_whole};

use w32_base::Whole;

/// A part that serves one thread for its whole life, with a clause that says where it may stand. The clause relies on
/// what every step of the other threads guarantees, and the part's own steps guarantee it to them.
pub trait RelyGuarantee: Whole {
    /// The scripts for which the part is built.
    ghost serves: { Script → Type 0 };

    /// Its clause: where it may stand, after what was seen in a run of a script, in a moment, of the process with a
    /// Win32 number.
    ghost clause: { Script → List (Seen Self) → Moment Self → ℕ → Self → Type 0 };

    /// It gives all that a part owes to a world.
    ghost owes: { (script : Script) → IsValid script → serves script
        → OwesWorld Self.posted_of Self.goes Self.opening Self.slot_of Self.thread_of (clause script) script };

    /// Where its clause holds, its events are told as it gives them: none is a death for which the number of an entry
    /// is to be put in.
    ghost tells: { (script : Script) → serves script → (past : List (Seen Self)) (now : Moment Self) (w : ℕ) (p : Self)
        → clause script past now w p → (q : Self) (o n : Own) (r : Reply) (a : After)
        → Self.goes p o script.setup r q n a → is_told_whole a.event ≡ true };
}
