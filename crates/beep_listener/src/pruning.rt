//! Which answers that have come in part are of a live channel.
ghost use Rattle.std.specs.Prelude.{◌≡◌, ◌<◌, length};
ghost use Rattle.beep_listener.specs.Pruning.{HasPruned, HasPrunedAt};

use beep_lines::Bodies;
use beep_steps::beep_session::Session;

/// Ends each answer whose channel has no live life.
pub(crate) fn prune(bodies: &mut Bodies, session: &Session)
    ensures { HasPruned session.now.peer.lives bodies.old bodies.new }
{
    for i in 0..bodies.len() {
        prune_at(bodies, session, i);
    }
}

/// Ends the answer at a place where its channel has no live life.
fn prune_at(bodies: &mut Bodies, session: &Session, i: usize)
    requires { i < length bodies.old }
    ensures { HasPrunedAt i session.now.peer.lives bodies.old bodies.new }
{
    let Some(channel) = bodies.channel(i) else {
        return;
    };
    if !session.live(channel) {
        bodies.end_at(i);
    }
}
