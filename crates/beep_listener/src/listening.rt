//! A listener over one link.
ghost use Rattle.std.specs.Prelude.{◌≡◌, ◌≤◌, ◌<◌, ◌+◌, ◌*◌, ◌∷◌, [], map, false, true, IfOk, OnOk};
ghost use Rattle.std.specs.List.{list_all};
ghost use Rattle.beep_steps.specs.beep_answering.specs.Decided.{NoneTunes};
ghost use Rattle.beep_steps.specs.beep_answering.specs.Sent.{is_uri};
ghost use Rattle.beep_steps.specs.beep_decide.specs.Plain.{plain_offer};
ghost use Rattle.beep_steps.specs.beep_journal.specs.declared.role.Role.{Role as RoleValue};
ghost use Rattle.beep_steps.specs.beep_wires.specs.declared.count.TheConstants.{COUNT_MAX};
ghost use Rattle.beep_steps.specs.beep_link.specs.Causes.{Grows, IsBounded, IsCaused, IsUnused, IsWritten, Keeps, WhereKnown, WithText};
ghost use Rattle.beep_listener.specs.Listening.{is_whole, listener_plan, plan_of, AreLinesOf, HasLinesOf, KeepsWhere};
ghost use Rattle.beep_listener.specs.Speaking.{notes_of};
ghost use Rattle.beep_listener.specs.SpeakingTurning.{ListensScripted};
ghost use Rattle.beep_steps.specs.EachEnd.{EachEndOn};
ghost use Rattle.beep_steps.specs.Resting.{IsPromptOn, TellsIdle};
ghost use Rattle.beep_steps.specs.Scripting.{KeepsWholeOn};
ghost use Rattle.beep_steps.specs.Ends.{AreFit, reads_of};
ghost use Rattle.beep_steps.specs.Refusing.{GoesUnrefused, ReadsOnlyGoing};
ghost use Rattle.beep_steps.specs.Logs.{moments, IsLawfulOn, Shows, terms_by};

use crate::listener::Listener;
use beep_steps::beep_answering::Offers;
use beep_steps::beep_chars::Text;
use beep_steps::beep_decide::Offer;
use beep_steps::beep_journal::Role;
use beep_steps::beep_link::{Ended, run_turns};
use beep_steps::beep_octets::NoMemory;
use beep_steps::beep_session::Session;
use beep_steps::beep_settings::Settings;
use beep_steps::beep_wires::{Sink, Wires};
use beep_steps::laws::what_a_listener_greets_with_is_read;
use beep_steps::{limits_of, reads_of};
use std::alloc::Global;

/// Listens on one link, until its session ends.
pub fn listen_end<W: Wires, O: Sink>(
    alloc: Global,
    wires: &mut W,
    link: u32,
    settings: &Settings,
    output: &mut O,
) -> Ended
    requires fit { AreFit settings.now }
    requires unused { IsUnused (W.state wires.old link) }
    ensures caused { IsCaused result (reads_of settings.now)
        (record { link = W.state wires.old link; quiets = (W.counts wires.old).quiets })
        (record { link = W.state wires.new link; quiets = (W.counts wires.new).quiets }) }
    ensures written { IsWritten result (O.state output.old).faults (O.state output.new).faults }
    ensures grew { Grows (O.state output.old).written (O.state output.new).written }

    // What the log shows, where it is known: what was written is lawful, and why the session
    // ended.
    ensures lawful { WhereKnown (IsLawfulOn (terms_by RoleValue.Listener settings.now))
        (W.state wires.new link).log }
    ensures shown { WhereKnown (Shows (terms_by RoleValue.Listener settings.now) result)
        (W.state wires.new link).log }
    ensures unrefused { WhereKnown (GoesUnrefused (terms_by RoleValue.Listener settings.now)
        result) (W.state wires.new link).log }
    ensures waits { WhereKnown (ReadsOnlyGoing (terms_by RoleValue.Listener settings.now))
        (W.state wires.new link).log }

    // What was written is the lines that came, or a beginning of them that has the lines of the log
    // before its latest read.
    ensures lines { WhereKnown (λ log.
        WithText (O.state output.old).written (O.state output.new).written
        (AreLinesOf (listener_plan settings.now) (is_whole result) (moments log)))
        (W.state wires.new link).log }
    ensures flushed { WhereKnown (λ log.
        WithText (O.state output.old).written (O.state output.new).written
        (λ text. KeepsWhere (HasLinesOf (listener_plan settings.now) text) result log))
        (W.state wires.new link).log }

    // What was sent in each life, channel zero among them, is the beginning of its script.
    ensures scripted { WhereKnown (KeepsWholeOn (listener_plan settings.now))
        (W.state wires.new link).log }

    // Wherever it read, nothing of its script was due, and nothing is where the settings ended it.
    // So it kept its whole part: the definition of one end.
    ensures prompt { WhereKnown (IsPromptOn (listener_plan settings.now))
        (W.state wires.new link).log }
    ensures rested { WhereKnown (λ log.
        TellsIdle (listener_plan settings.now) result (moments log))
        (W.state wires.new link).log }
    ensures each { WhereKnown (EachEndOn (listener_plan settings.now) result)
        (W.state wires.new link).log }

    // What stays, and how much and how often is read.
    ensures bounded { IsBounded (reads_of settings.now) (W.state wires.new link).log }
    ensures keeps { Keeps link
        (record {
          state = W.state wires.old;
          counts = W.counts wires.old;
          asked = W.asked wires.old;
          lent = W.lent wires.old;
        })
        (record {
          state = W.state wires.new;
          counts = W.counts wires.new;
          asked = W.asked wires.new;
          lent = W.lent wires.new;
        }) }
    ensures kept { (O.state output.old).faults ≤ (O.state output.new).faults }
    ensures reads { (W.state wires.new link).reads
        ≤ (W.state wires.old link).reads + settings.now.octets * settings.now.idle }
    ensures exact { (W.state wires.old link).reads ≡ 0
        → (W.state wires.new link).reads < COUNT_MAX }
{
    let Ok(mut listener) = begin(alloc, settings) else {
        return Ended::NoMemory;
    };
    run_turns(
        alloc,
        &mut listener,
        wires,
        link,
        reads_of(settings),
        output,
    )
}

/// A listener that offers the profile RAW.
fn begin(alloc: Global, settings: &Settings) -> Result<Listener, NoMemory>
    requires fit { AreFit settings.now }
    ensures stands { IfOk result (λ listener. ListensScripted listener.session listener.bodies
        listener.lines.octets.octets (notes_of listener) [] []) }
    ensures plan { IfOk result (λ listener.
        plan_of listener.session ≡ listener_plan settings.now) }
{
    let offers = one_offer(alloc, &settings.raw_uri)?;
    let session = Session::new(alloc, Role::Listener, offers, limits_of(settings))?;
    what_a_listener_greets_with_is_read();
    Listener::new(alloc, session)
}

/// One profile that is offered, and isn't tuning.
fn one_offer(alloc: Global, uri: &Text) -> Result<Offers, NoMemory>
    requires uri { is_uri uri.now ≡ true }
    ensures uris { IfOk result (λ offers. list_all (λ offer. is_uri offer.uri) offers ≡ true) }
    ensures none { IfOk result (λ offers. NoneTunes (map plain_offer offers)) }
    ensures value { IfOk result (λ offers. map plain_offer offers
        ≡ record { uri = uri.now; tuning = false } ∷ []) }
{
    let mut offers = Offers::new(alloc);
    offers.push(Offer {
        uri: uri.copy()?,
        tuning: false,
    })?;
    Ok(offers)
}
