//! A sender over one link.
ghost use Rattle.std.specs.Prelude.{◌≡◌, ◌≢◌, ◌≤◌, ◌<◌, ◌+◌, ◌*◌, [], IfOk};
ghost use Rattle.beep_steps.specs.beep_journal.specs.declared.role.Role.{Role as RoleValue};
ghost use Rattle.beep_steps.specs.beep_wires.specs.declared.count.TheConstants.{COUNT_MAX};
ghost use Rattle.beep_steps.specs.beep_link.specs.Causes.{IsBounded, IsCaused, IsUnused, Keeps, WhereKnown};
ghost use Rattle.beep_steps.specs.beep_link.specs.declared.ended.Ended.{Ended as EndedValue};
ghost use Rattle.beep_steps.specs.Ends.{AreFit, reads_of};
ghost use Rattle.beep_steps.specs.Logs.{moments, IsLawfulOn, Shows, terms_by};
ghost use Rattle.beep_steps.specs.Refusing.{GoesUnrefused, ReadsOnlyGoing};
ghost use Rattle.beep_steps.specs.EachEnd.{EachEndOn};
ghost use Rattle.beep_steps.specs.Resting.{AreShort, IsPromptOn, TellsIdle};
ghost use Rattle.beep_steps.specs.Scripting.{KeepsWholeOn};
ghost use Rattle.beep_steps.specs.Sending.{sender_plan, SendsAll};
ghost use Rattle.beep_sender.specs.Sender.{plan_of, SendsBy, StandsBy};

use crate::sender::Sender;
use beep_steps::beep_answering::Offers;
use beep_steps::beep_journal::Role;
use beep_steps::beep_link::{Ended, run_turns};
use beep_steps::beep_octets::NoMemory;
use beep_steps::beep_session::Session;
use beep_steps::beep_settings::Settings;
use beep_steps::beep_wires::{NullSink, Wires};
use beep_steps::laws::{what_a_sender_asks_is_read, what_a_sender_greets_with_is_read};
use beep_steps::prof_raw::Entries;
use beep_steps::{limits_of, reads_of};
use std::alloc::Global;

/// Sends lines on one link, until its session ends. Each has 1 to 8,192 octets, and no LF.
pub fn send_end<W: Wires>(
    alloc: Global,
    wires: &mut W,
    link: u32,
    settings: &Settings,
    lines: &Entries,
) -> Ended
    requires fit { AreFit settings.now }
    requires unused { IsUnused (W.state wires.old link) }
    ensures caused { IsCaused result (reads_of settings.now)
        (record { link = W.state wires.old link; quiets = (W.counts wires.old).quiets })
        (record { link = W.state wires.new link; quiets = (W.counts wires.new).quiets }) }
    ensures unwritten { result ≢ EndedValue.WriteFault }

    // What the log shows, where it is known: what was written is lawful, and why the session
    // ended.
    ensures lawful { WhereKnown (IsLawfulOn (terms_by RoleValue.Initiator settings.now))
        (W.state wires.new link).log }
    ensures shown { WhereKnown (Shows (terms_by RoleValue.Initiator settings.now) result)
        (W.state wires.new link).log }
    ensures unrefused { WhereKnown (GoesUnrefused (terms_by RoleValue.Initiator settings.now)
        result) (W.state wires.new link).log }
    ensures waits { WhereKnown (ReadsOnlyGoing (terms_by RoleValue.Initiator settings.now))
        (W.state wires.new link).log }

    // Where the session is released all was sent.
    ensures sent { result ≡ EndedValue.Released → WhereKnown
        (SendsAll (sender_plan settings.now lines.now)) (W.state wires.new link).log }

    // What was sent in each life, channel zero among them, is the beginning of its script.
    ensures scripted { WhereKnown (KeepsWholeOn (sender_plan settings.now lines.now))
        (W.state wires.new link).log }

    // Where its lines are short, nothing of its script was due wherever it read, and nothing is
    // where the settings ended it. So it kept its whole part: the definition of one end.
    ensures prompt { AreShort lines.now → WhereKnown
        (IsPromptOn (sender_plan settings.now lines.now)) (W.state wires.new link).log }
    ensures rested { AreShort lines.now → WhereKnown (λ log.
        TellsIdle (sender_plan settings.now lines.now) result (moments log))
        (W.state wires.new link).log }
    ensures each { AreShort lines.now → WhereKnown
        (EachEndOn (sender_plan settings.now lines.now) result) (W.state wires.new link).log }

    // What stays, and how much and how often is read.
    ensures bounded { IsBounded (reads_of settings.now) (W.state wires.new link).log }
    ensures keeps { Keeps link
        (record {
          state = W.state wires.old;
          counts = W.counts wires.old;
          asked = W.asked wires.old;
          lent = W.lent wires.old;
        })
        (record {
          state = W.state wires.new;
          counts = W.counts wires.new;
          asked = W.asked wires.new;
          lent = W.lent wires.new;
        }) }
    ensures reads { (W.state wires.new link).reads
        ≤ (W.state wires.old link).reads + settings.now.octets * settings.now.idle }
    ensures exact { (W.state wires.old link).reads ≡ 0
        → (W.state wires.new link).reads < COUNT_MAX }
{
    let Ok(mut sender) = begin(alloc, settings, lines) else {
        return Ended::NoMemory;
    };
    let mut none = NullSink;
    run_turns(
        alloc,
        &mut sender,
        wires,
        link,
        reads_of(settings),
        &mut none,
    )
}

/// A sender that asks for the profile RAW.
fn begin<'l>(
    alloc: Global,
    settings: &'l Settings,
    lines: &'l Entries,
) -> Result<Sender<'l>, NoMemory>
    requires fit { AreFit settings.now }
    ensures sends { IfOk result (λ sender. SendsBy sender []) }
    ensures stands { IfOk result (λ sender. StandsBy sender []) }
    ensures plan { IfOk result (λ sender. plan_of sender ≡ sender_plan settings.now lines.now) }
{
    let offers = Offers::new(alloc);
    let session = Session::new(alloc, Role::Initiator, offers, limits_of(settings))?;
    what_a_sender_asks_is_read();
    what_a_sender_greets_with_is_read();
    Sender::new(alloc, session, &settings.raw_uri, lines)
}
