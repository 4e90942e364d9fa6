//! The part of a thread, proved beside those of all other threads: for a script that keeps to what the parts are built
//! for.

ghost use Rattle.std.specs.Prelude.{◌≡◌, true};

use crate::actor::Actor;
use world_spec::RelyGuarantee;

impl RelyGuarantee for Actor {
    ghost use Rattle.layer_actor.specs.Built.{is_built};
    ghost use Rattle.layer_actor.specs.ActorClause.{ActorClause};
    ghost use Rattle.layer_actor.specs.ActorOwes.{actor_owes};
    ghost use Rattle.layer_actor.specs.ActorTells.{actor_tells};

    ghost serves = { λ script. is_built script ≡ true };

    ghost clause = { λ script. ActorClause script };

    ghost owes = { λ script valid built. actor_owes script valid built };

    ghost tells = { λ script built past now w p held q o n r a g. actor_tells script past now w p held q o n r a g };
}
