//! Parts of `roster` inside a bigger part: the call that each posts, and a turn of it. One that is done stays so.

ghost use Rattle.std.specs.Prelude.{◌≡◌, ◌<◌};
ghost use Rattle.roster.specs.Mutex.{hold_posted, hold_after, let_posted, let_after};
ghost use Rattle.roster.specs.Post.{post_after};
ghost use Rattle.roster.specs.Turns.{Turn};

use crate::calls;
use roster::{Hold, Let, Post};
use w32_base::{Call, Event, Own, Part, Reply, Setup};

/// The call that a taking of the roster mutex posts.
pub fn hold_call(hold: Hold) -> Call
    ensures { result ≡ hold_posted hold }
{
    match hold {
        Hold::Held => calls::rest(),
        other => other.posted(),
    }
}

/// Where it goes with a reply.
pub fn hold_turn(hold: Hold, own: &mut Own, setup: &Setup, reply: &Reply) -> Hold
    ensures value { result ≡ hold_after hold reply.now }
    ensures own { own.new ≡ own.old }
{
    match hold {
        Hold::Held => hold,
        mut other => {
            other.after(own, setup, reply);
            other
        }
    }
}

/// The call that a letting go of the roster mutex posts.
pub fn let_call(release: Let) -> Call
    ensures { result ≡ let_posted release }
{
    match release {
        Let::Released => calls::rest(),
        other => other.posted(),
    }
}

/// Where it goes with a reply.
pub fn let_turn(release: Let, own: &mut Own, setup: &Setup, reply: &Reply) -> Let
    ensures value { result ≡ let_after release reply.now }
    ensures own { own.new ≡ own.old }
{
    match release {
        Let::Released => release,
        mut other => {
            other.after(own, setup, reply);
            other
        }
    }
}

/// Where a post goes with a reply, and the event that stands in the turn.
pub fn post_turn(post: Post, own: &mut Own, setup: &Setup, reply: &Reply) -> (Post, Option<Event>)
    ensures value { (record { part = result.0; event = result.1 }) ≡ post_after post reply.now }
    ensures own { own.new ≡ own.old }
{
    match post {
        Post::Finished(_) => (post, None),
        mut other => {
            let after = other.after(own, setup, reply);
            (other, after.event)
        }
    }
}
