//! What the words of this crate mean, as facts: each function does nothing, and its contract is the
//! fact.
ghost use Rattle.std.specs.Prelude.{◌≡◌, ◌↔◌, ℕ, List, true};
ghost use Rattle.beep_history.specs.Journal.{Item};
ghost use Rattle.beep_history.specs.Marks.{Mark};
ghost use Rattle.beep_channel.specs.Held.{Held, is_held_drained, is_held_ready};
ghost use Rattle.beep_channel.specs.Stands.{Stands};
ghost use Rattle.beep_channel.specs.Drained.{IsDrained};
ghost use Rattle.beep_channel.specs.Ready.{is_due};

/// What is held tells exactly whether a life is drained, by its history and by what was given and
/// taken in it (RFC 3080, section 2.3.1.3).
pub fn what_is_held_tells_whether_a_life_is_drained()
    ensures { (size : ℕ) (c : Held) (past : List Item) (given taken : List Mark)
        → Stands size c past given taken → (is_held_drained c ≡ true) ↔ IsDrained past given taken }
{}

/// What is held tells exactly whether a frame can go, by the history of a life and by what was
/// given in it (RFC 3080, section 2.1; RFC 3081, section 3.1).
pub fn what_is_held_tells_whether_a_frame_can_go()
    ensures { (size : ℕ) (c : Held) (past : List Item) (given taken : List Mark)
        → Stands size c past given taken → is_held_ready c ≡ is_due past given }
{}
