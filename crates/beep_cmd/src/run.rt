//! The one call of the program.
ghost use Rattle.std.specs.Prelude.{◌≡◌, ◌⊎◌, ◌+◌, ◌≤◌, ℕ, List, Some, None, true, false, map, string_bytes};
ghost use Rattle.beep_show.specs.beep_words.specs.CommandSet.{IsShow, IsReplay, IsSend, IsListen, IsPair, IsHelp, IsVersion, IsNoCommand};
ghost use Rattle.beep_show.specs.beep_words.specs.Helps.{help_of};
ghost use Rattle.beep_show.specs.beep_words.specs.declared.command.Topic.{Topic as topic_type};
ghost use Rattle.beep_show.specs.beep_words.specs.declared.texts.TheConstants.{VERSION_TEXT as version_text};
ghost use Rattle.beep_show.specs.beep_words.specs.declared.command.ShowSettings.{ShowSettings as settings_type};
ghost use Rattle.beep_show.specs.beep_words.specs.declared.command.PairSettings.{PairSettings as pair_settings};
ghost use Rattle.beep_runs.specs.beep_settings.specs.declared.settings.Settings.{Settings as end_settings};
ghost use Rattle.beep_show.specs.beep_input.specs.declared.whole.TheConstants.{MAX_INPUT};
ghost use Rattle.beep_runs.specs.beep_journal.specs.declared.role.Role.{Role as RoleValue};
ghost use Rattle.beep_runs.specs.Runs.{seen_by};
ghost use Rattle.beep_runs.specs.beep_wires.specs.States.{SourceState};
ghost use Rattle.beep_show.specs.Show.{Shown, Refused, IsPlain, NoFault, run_of, run_by};
ghost use Rattle.beep_cmd.specs.Replay.{Replayed, IsLawful};
ghost use Rattle.beep_cmd.specs.Pair.{Paired, IsRunnable};
ghost use Rattle.beep_cmd.specs.Ends.{AcceptsAtMost, AreShut, DialsOnce, GivesAtMost, Listened, ReadsWithin, Sent, WritesLawfully};
ghost use Rattle.beep_cmd.specs.Complete.{ListenGoesWell, SendGoesWell};
ghost use Rattle.beep_cmd.specs.Listening.{WritesLines};
ghost use Rattle.beep_cmd.specs.Recording.{ListenRecorded};
ghost use Rattle.beep_cmd.specs.Told.{Told};

use crate::listen::listen;
use crate::pair::pair;
use crate::replay::replay;
use crate::send::send;
use beep_runs::beep_octets::NoMemory;
use beep_runs::beep_wires::{Failed, Sink, Source, Wires, write_all};
use beep_show::beep_words::{Command, VERSION_TEXT, command_of, help_text};
use beep_show::{show, status};
use std::alloc::Global;

/// Runs the command that `words` name, the words after the program's name, and answers the exit
/// status (docs/COMMANDS.md). It reads `input`, writes `output`, and makes links by `wires`.
pub fn beep_run<I: Source, O: Sink, W: Wires>(
    alloc: Global,
    words: &[String],
    input: &mut I,
    output: &mut O,
    wires: &mut W,
) -> u8
    requires going { (I.state input.old).ended ≡ false }
    // What each status comes from.
    ensures shown { let run = run_by I.state O.state input.old output.old input.new output.new in
        (settings : settings_type) → IsShow settings (map string_bytes words.now)
        → Shown settings result run }
    ensures replayed { let run = run_by I.state O.state input.old output.old input.new output.new in
        IsReplay (map string_bytes words.now)
        → Replayed result run }
    ensures refused { let run = run_by I.state O.state input.old output.old input.new output.new in
        IsNoCommand (map string_bytes words.now)
        → Refused result run }
    ensures complete { let run = run_by I.state O.state input.old output.old input.new output.new in
        (settings : settings_type) (octets : List ℕ)
        → IsShow settings (map string_bytes words.now)
        → (I.state input.old).left ≡ Some octets → IsPlain settings octets
        → NoFault run → (result ≡ 0) ⊎ (result ≡ 7) }
    ensures replay_complete { (octets : List ℕ) → IsReplay (map string_bytes words.now)
        → (I.state input.old).left ≡ Some octets → IsLawful octets
        → NoFault (run_by I.state O.state input.old output.old input.new output.new)
        → (result ≡ 0) ⊎ (result ≡ 7) }

    ensures sent { let run = run_by I.state O.state input.old output.old input.new output.new in
        let seen = seen_by W.state W.counts W.asked W.lent in
        (settings : end_settings) → IsSend settings (map string_bytes words.now) → Sent settings
        (seen wires.old) (seen wires.new) result run }
    ensures listened { let run = run_by I.state O.state input.old output.old input.new output.new in
        let seen = seen_by W.state W.counts W.asked W.lent in
        (settings : end_settings) → IsListen settings (map string_bytes words.now) → Listened
        settings (seen wires.old) (seen wires.new) result run }
    ensures listen_recorded { let seen = seen_by W.state W.counts W.asked W.lent in
        (settings : end_settings) → IsListen settings (map string_bytes words.now)
        → settings.recording ≡ true → ListenRecorded settings (seen wires.old) (seen wires.new)
        result (O.state output.old) (O.state output.new) }
    ensures listen_lines { let seen = seen_by W.state W.counts W.asked W.lent in
        (settings : end_settings) → IsListen settings (map string_bytes words.now)
        → settings.recording ≡ false → WritesLines settings (seen wires.old) (seen wires.new)
        result (O.state output.old) (O.state output.new) }
    ensures send_complete { let seen = seen_by W.state W.counts W.asked W.lent in
        let run = run_by I.state O.state input.old output.old input.new output.new in
        (settings : end_settings) → IsSend settings (map string_bytes words.now)
        → SendGoesWell settings (seen wires.old) (seen wires.new) run
        → (result ≡ 0) ⊎ (result ≡ 7) }
    ensures listen_complete { let seen = seen_by W.state W.counts W.asked W.lent in
        (settings : end_settings) → IsListen settings (map string_bytes words.now)
        → ListenGoesWell settings (seen wires.old) (seen wires.new) (O.state output.old)
        (O.state output.new) → (result ≡ 0) ⊎ (result ≡ 7) }
    ensures paired { let run = run_by I.state O.state input.old output.old input.new output.new in
        (settings : pair_settings) → IsPair settings (map string_bytes words.now)
        → Paired settings result run }
    ensures pair_complete { (settings : pair_settings)
        → IsPair settings (map string_bytes words.now)
        → IsRunnable settings (I.state input.old).left
        → NoFault (run_by I.state O.state input.old output.old input.new output.new)
        → (result ≡ 0) ⊎ (result ≡ 7) }
    ensures helped { let run = run_by I.state O.state input.old output.old input.new output.new in
        (topic : topic_type) → IsHelp topic (map string_bytes words.now)
        → Told (help_of topic) result run }
    ensures versioned { let run = run_by I.state O.state input.old output.old input.new output.new in
        IsVersion (map string_bytes words.now) → Told version_text.now result run }
    ensures usage { result ≡ 1 → IsNoCommand (map string_bytes words.now) }

    // What is written on each link that was given is lawful, where its log is known.
    ensures send_lawful { let seen = seen_by W.state W.counts W.asked W.lent in
        (settings : end_settings) → IsSend settings (map string_bytes words.now) → WritesLawfully
        RoleValue.Initiator settings (seen wires.old) (seen wires.new) }
    ensures listen_lawful { let seen = seen_by W.state W.counts W.asked W.lent in
        (settings : end_settings) → IsListen settings (map string_bytes words.now) → WritesLawfully
        RoleValue.Listener settings (seen wires.old) (seen wires.new) }

    // What is asked for.
    ensures dials { let seen = seen_by W.state W.counts W.asked W.lent in
        (settings : end_settings) → IsSend settings (map string_bytes words.now) → DialsOnce
        settings (seen wires.old) (seen wires.new) }
    ensures accepts { let seen = seen_by W.state W.counts W.asked W.lent in
        (settings : end_settings) → IsListen settings (map string_bytes words.now) → AcceptsAtMost
        settings (seen wires.old) (seen wires.new) }

    // No more links are given than are asked for. Each is shut, and was read no more often than the
    // settings allow.
    ensures send_given { let seen = seen_by W.state W.counts W.asked W.lent in
        (settings : end_settings) → IsSend settings (map string_bytes words.now) → GivesAtMost 1
        (seen wires.old) (seen wires.new) }
    ensures listen_given { let seen = seen_by W.state W.counts W.asked W.lent in
        (settings : end_settings) → IsListen settings (map string_bytes words.now) → GivesAtMost
        settings.sessions (seen wires.old) (seen wires.new) }
    ensures shut { let seen = seen_by W.state W.counts W.asked W.lent in
        AreShut (seen wires.old) (seen wires.new) }
    ensures send_link_reads { let seen = seen_by W.state W.counts W.asked W.lent in
        (settings : end_settings) → IsSend settings (map string_bytes words.now) → ReadsWithin
        settings (seen wires.old) (seen wires.new) }
    ensures listen_link_reads { let seen = seen_by W.state W.counts W.asked W.lent in
        (settings : end_settings) → IsListen settings (map string_bytes words.now) → ReadsWithin
        settings (seen wires.old) (seen wires.new) }

    // What stays.
    ensures unread { IsNoCommand (map string_bytes words.now) → input.new ≡ input.old }
    ensures unlinked { (settings : settings_type) → IsShow settings (map string_bytes words.now)
        ⊎ IsReplay (map string_bytes words.now) ⊎ IsNoCommand (map string_bytes words.now)
        → wires.new ≡ wires.old }
    ensures listen_unread { (settings : end_settings)
        → IsListen settings (map string_bytes words.now) → input.new ≡ input.old }
    ensures asked_unread { (topic : topic_type) → IsHelp topic (map string_bytes words.now)
        ⊎ IsVersion (map string_bytes words.now) → input.new ≡ input.old }
    ensures asked_unlinked { (topic : topic_type) → IsHelp topic (map string_bytes words.now)
        ⊎ IsVersion (map string_bytes words.now) → wires.new ≡ wires.old }
    ensures no_memory { (settings : settings_type) → IsShow settings (map string_bytes words.now)
        → result ≡ 7 → settings.elements ≡ false
        → (input.new ≡ input.old) × (output.new ≡ output.old) }
    ensures reads { (settings : settings_type) → IsShow settings (map string_bytes words.now)
        → (I.state input.new).reads ≤ (I.state input.old).reads + (settings.octets + 1) }
    ensures replay_no_memory { IsReplay (map string_bytes words.now)
        → result ≡ 7 → output.new ≡ output.old }
    ensures send_reads { (settings : end_settings) → IsSend settings (map string_bytes words.now)
        → (I.state input.new).reads ≤ (I.state input.old).reads + (MAX_INPUT + 1) }
    ensures replay_reads { IsReplay (map string_bytes words.now)
        → (I.state input.new).reads ≤ (I.state input.old).reads + (MAX_INPUT + 1) }
    ensures pair_unlinked { (settings : pair_settings)
        → IsPair settings (map string_bytes words.now) → wires.new ≡ wires.old }
    ensures pair_no_memory { (settings : pair_settings)
        → IsPair settings (map string_bytes words.now) → result ≡ 7 → output.new ≡ output.old }
    ensures pair_unread { (settings : pair_settings)
        → IsPair settings (map string_bytes words.now)
        → (settings.seed ≡ None) ⊎ (input.new ≡ input.old) }
    ensures pair_reads { (settings : pair_settings) → IsPair settings (map string_bytes words.now)
        → (I.state input.new).reads ≤ (I.state input.old).reads + (MAX_INPUT + 1) }
{
    match command_of(alloc, words) {
        Ok(Some(Command::Show(settings))) => show(alloc, settings, input, output),
        Ok(Some(Command::Replay)) => replay(alloc, input, output),
        Ok(Some(Command::Send(settings))) => send(alloc, &settings, input, output, wires),
        Ok(Some(Command::Listen(settings))) => listen(alloc, &settings, output, wires),
        Ok(Some(Command::Pair(settings))) => pair(alloc, settings, input, output),
        Ok(Some(Command::Help(topic))) => tell(help_text(topic), output),
        Ok(Some(Command::Version)) => tell(VERSION_TEXT, output),
        Ok(None) => refuse(output),
        Err(NoMemory) => status::NO_MEMORY,
    }
}

/// Says that the words are no command.
fn refuse<O: Sink>(output: &mut O) -> u8
    ensures { (source : SourceState)
        → Refused result (run_of source source (O.state output.old) (O.state output.new)) }
{
    match write_all(output, b"! usage\n") {
        Ok(()) => status::USAGE,
        Err(Failed) => status::WRITE_FAULT,
    }
}

/// Writes a text that was asked for.
fn tell<O: Sink>(text: &str, output: &mut O) -> u8
    ensures { (source : SourceState)
        → Told text.now result (run_of source source (O.state output.old) (O.state output.new)) }
{
    match write_all(output, text.as_bytes()) {
        Ok(()) => status::FINE,
        Err(Failed) => status::WRITE_FAULT,
    }
}
