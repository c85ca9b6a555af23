//! What holds of an end that serves one profile, as facts: each function does nothing, and its
//! contract is the fact.
ghost use Rattle.std.specs.Prelude.{◌≡◌, ◌+◌, ◌<◌, ◌≤◌, ◌==◌, ℕ, List, ◌++◌, false};
ghost use Rattle.beep_octets.specs.Numbers.{numbers_32};
ghost use Rattle.beep_frame.specs.declared.head.Head.{Head};
ghost use Rattle.beep_history.specs.declared.journal.Side.{Side};
ghost use Rattle.beep_history.specs.declared.limits.TheConstants.{MAX_REQUESTS};
ghost use Rattle.beep_history.specs.Journal.{Item};
ghost use Rattle.beep_history.specs.Marks.{position_of};
ghost use Rattle.beep_journal.specs.Broken.{none_tunes};
ghost use Rattle.beep_journal.specs.Journal.{Past, Shows};
ghost use Rattle.beep_journal.specs.Life.{history};
ghost use Rattle.beep_journal.specs.Log.{Moment, got_all, put_all};
ghost use Rattle.beep_lawful.specs.declared.terms.Terms.{Terms};
ghost use Rattle.beep_lawful.specs.Lawful.{IsLawful, IsLawfulLog};
ghost use Rattle.beep_talk.specs.Plan.{PlainPlan};
ghost use Rattle.beep_served.specs.Served.{HaveProfile, IsServed, IsServing, octets_got};

/// Where an end asked nothing on channel zero and chose one profile alone, each life began with
/// that profile.
pub fn each_life_began_with_the_profile()
    ensures { (uri : List ℕ) (journal : List Item) → IsServing uri journal
        → HaveProfile uri journal }
{}

/// The position of which a frame above channel zero speaks that comes to a lawful end is bound by
/// the octets that came: 1,024 own requests wait at most.
pub fn a_position_is_bound_by_the_octets_that_came()
    ensures { (terms : Terms) (log : List Moment) (past : Past) (number : ℕ) (head : Head)
        → IsLawfulLog terms none_tunes log → Shows none_tunes log past
        → (number == 0) ≡ false
        → position_of Side.Received (history number past.journal) head
        ≤ octets_got log + MAX_REQUESTS }
{}

/// What comes takes nothing from an end that serves one profile, and neither does what wasn't
/// written yet.
pub fn an_end_serves_on_whatever_comes()
    ensures comes { (uri octets : List ℕ) (log : List Moment) (before after : Past)
        → Shows none_tunes log before → Shows none_tunes (got_all octets log) after
        → IsServing uri before.journal → IsServing uri after.journal }
    ensures goes { (uri octets : List ℕ) (log : List Moment) (before after : Past)
        → Shows none_tunes log before → Shows none_tunes (put_all octets log) after
        → IsServing uri after.journal → IsServing uri before.journal }
{}

/// All that comes above channel zero to a lawful end that serves one profile is of lives that began
/// with it, and names a position below 2^64.
pub fn what_comes_is_served()
    ensures { (plan : PlainPlan) (terms : Terms) (log : List Moment) (past : Past)
        → IsLawfulLog terms none_tunes log → Shows none_tunes log past
        → IsServing plan.raw_uri past.journal → octets_got log < numbers_32
        → IsServed plan past.journal }
{}
