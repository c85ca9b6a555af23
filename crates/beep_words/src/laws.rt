//! Laws above the definitions of specs/. The functions do nothing: what they ensure is the law.
ghost use Rattle.std.specs.Prelude.{ℕ, List};
ghost use Rattle.beep_settings.specs.declared.settings.Settings.{Settings as settings_type};
ghost use Rattle.beep_words.specs.declared.command.PairSettings.{PairSettings as pair_settings};
ghost use Rattle.beep_words.specs.CommandSet.{IsSend, IsListen, IsPair};
ghost use Rattle.beep_words.specs.Usable.{IsUsable, IsPairUsable};

/// The settings that words say are in their ranges.
pub fn settings_are_usable()
    ensures sent { (settings : settings_type) (words : List (List ℕ)) → IsSend settings words
        → IsUsable settings }
    ensures listened { (settings : settings_type) (words : List (List ℕ))
        → IsListen settings words → IsUsable settings }
    ensures paired { (settings : pair_settings) (words : List (List ℕ)) → IsPair settings words
        → IsPairUsable settings }
{}
