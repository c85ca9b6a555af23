//! What an ear and the live channels stand for at first, and what the text that is kept of channel
//! zero says: each function does nothing, and its contract is the fact.
ghost use Rattle.std.specs.Prelude.{◌≡◌, ℕ, List, []};
ghost use Rattle.beep_standing.specs.beep_channel.specs.Held.{Live};
ghost use Rattle.beep_standing.specs.beep_lives.specs.Edits.{AreNew};
ghost use Rattle.beep_standing.specs.Standing.{no_marks};
ghost use Rattle.beep_hearing.specs.declared.ear.Ear.{Ear};
ghost use Rattle.beep_standing.specs.beep_mgmt.specs.Message.{message_said};
ghost use Rattle.beep_hearing.specs.Hears.{Hears, IsEar, kept_text};
ghost use Rattle.beep_hearing.specs.Answers.{IsReached};

/// A new ear and new channels stand for no octets and for the empty journal.
pub fn a_new_ear_stands()
    ensures empty { (size : ℕ) (ear : Ear) (channels : List Live) → Hears [] [] [] ear
        → AreNew size channels → IsEar size [] [] [] no_marks no_marks ear channels }
    ensures reached { (size : ℕ) (ear : Ear) (channels : List Live) → Hears [] [] [] ear
        → AreNew size channels → IsReached ear channels }
{}

/// What is kept of a message of channel zero says what the whole says.
pub fn what_is_kept_says_the_whole()
    ensures { (octets : List ℕ) → message_said (kept_text octets) ≡ message_said octets }
{}
