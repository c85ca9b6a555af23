//! What a decision on a request of channel zero calls for, made before anything changes (RFC 3080,
//! section 2.3.1).
ghost use Rattle.std.specs.Prelude.{◌≡◌, ℕ, ◌<◌, ◌≤◌, true, length, Option, None, is_some, IfOk};
ghost use Rattle.std.specs.List.{list_all};
ghost use Rattle.std.specs.Option.{option_copied};
ghost use Rattle.beep_management.specs.beep_frame.specs.declared.head.TheConstants.{MAX_NUMBER};
ghost use Rattle.beep_management.specs.beep_mgmt.specs.declared.limits.TheConstants.{MAX_CODE};
ghost use Rattle.beep_management.specs.beep_mgmt.specs.Form.{Form};
ghost use Rattle.beep_management.specs.beep_journal.specs.Plain.{form_in};
ghost use Rattle.beep_management.specs.beep_seq.specs.declared.limits.TheConstants.{MIN_WINDOW, MAX_WINDOW};
ghost use Rattle.beep_management.specs.beep_decide.specs.Decide.{PlainStanding, used_count, refuse, choose, grant_close, decide as decided};
ghost use Rattle.beep_management.specs.beep_turns.specs.declared.turns.TheConstants.{MAX_CHANNELS};
ghost use Rattle.beep_management.specs.beep_decide.specs.Plain.{plain_standing};
ghost use Rattle.beep_management.specs.Values.{prepared_of};
ghost use Rattle.beep_answering.specs.Sent.{is_uri};
ghost use Rattle.beep_answering.specs.Decided.{NoneTunes, number_in, code_in, SettledBy, IsAnswer, kind_of, SaysAnswer};
ghost use Rattle.beep_answering.specs.declared.offers.TheConstants.{MAX_OFFERS};

use crate::answer::{choice_text, okay_text, refusal_text};
use crate::settled::Settled;
use beep_management::beep_channel::Channel;
use beep_management::beep_decide::{Answer as Decision, Standing, decide};
use beep_management::beep_frame::Kind;
use beep_management::beep_mgmt::Mgmt;
use beep_management::beep_octets::NoMemory;
use beep_management::{Answer, Wait};
use std::alloc::Global;

/// What is prepared for a request: its answer, the channel that is to be granted, and what the
/// request is settled as.
#[derive(Drop)]
pub struct Prepared {
    pub answer: Answer,
    pub channel: Option<Channel>,
    pub settled: Settled,
}

/// Decides on a request that says this, and makes what the decision calls for. `window` is the own
/// window of a channel that is granted.
pub fn prepare(
    alloc: Global,
    standing: &Standing,
    window: u32,
    said: Option<&Mgmt>,
) -> Result<Prepared, NoMemory>
    requires least { MIN_WINDOW ≤ window }
    requires greatest { window ≤ MAX_WINDOW }
    requires few { length standing.now.offers.items ≤ MAX_OFFERS }
    requires uris { list_all (λ offer. is_uri offer.uri) standing.now.offers.items ≡ true }
    requires none { NoneTunes (plain_standing standing.now).offers }
    ensures answer { IfOk result (λ prepared. IsAnswer window (form_in (option_copied said.entry))
        (prepared_of prepared.answer) prepared.channel) }
    ensures message { IfOk result (λ prepared. SaysAnswer (plain_standing standing.now)
        (decided (plain_standing standing.now) (form_in (option_copied said.entry)))
        prepared.answer.octets.octets) }
    ensures settled { IfOk result (λ prepared. SettledBy
        (decided (plain_standing standing.now) (form_in (option_copied said.entry)))
        (form_in (option_copied said.entry)) prepared.settled prepared.answer.waits) }
    ensures kind { IfOk result (λ prepared. prepared.answer.kind
        ≡ kind_of (decided (plain_standing standing.now) (form_in (option_copied said.entry)))) }
    ensures few { IfOk result (λ prepared. is_some prepared.channel ≡ true
        → used_count (plain_standing standing.now) < MAX_CHANNELS) }
{
    match decide(alloc, standing, said)? {
        Decision::Refuse(code) => prepare_refusal(alloc, code),
        Decision::Choose(place) => prepare_choice(alloc, standing, window, number_in(said), place),
        Decision::Tune(_, _) => unreachable!(),
        Decision::GrantClose => prepare_close(alloc, number_in(said), code_in(said)),
    }
}

/// What a refusal calls for.
fn prepare_refusal(alloc: Global, code: u16) -> Result<Prepared, NoMemory>
    requires code { code ≤ MAX_CODE }
    ensures answer { (size : ℕ) (standing : PlainStanding) (form : Option Form)
        → decided standing form ≡ refuse code
        → IfOk result (λ prepared. IsAnswer size form (prepared_of prepared.answer)
        prepared.channel) }
    ensures message { (standing : PlainStanding) → IfOk result (λ prepared.
        SaysAnswer standing (refuse code) prepared.answer.octets.octets) }
    ensures settled { (form : Option Form) → IfOk result (λ prepared.
        SettledBy (refuse code) form prepared.settled prepared.answer.waits) }
    ensures kind { IfOk result (λ prepared. prepared.answer.kind ≡ kind_of (refuse code)) }
    ensures none { IfOk result (λ prepared. prepared.channel ≡ None) }
{
    Ok(Prepared {
        answer: Answer {
            kind: Kind::Err,
            octets: refusal_text(alloc, code)?,
            waits: Wait::Nothing,
        },
        channel: None,
        settled: Settled::PeerRefused { code },
    })
}

/// What the choice of an offer calls for, in a start of this number.
fn prepare_choice(
    alloc: Global,
    standing: &Standing,
    window: u32,
    number: u32,
    place: usize,
) -> Result<Prepared, NoMemory>
    requires least { MIN_WINDOW ≤ window }
    requires greatest { window ≤ MAX_WINDOW }
    requires few { length standing.now.offers.items ≤ MAX_OFFERS }
    requires uris { list_all (λ offer. is_uri offer.uri) standing.now.offers.items ≡ true }
    requires above { 0 < number }
    requires number { number ≤ MAX_NUMBER }
    requires offer { place < length standing.now.offers.items }
    ensures answer { (form : Option Form)
        → decided (plain_standing standing.now) form ≡ choose place → number_in form ≡ number
        → IfOk result (λ prepared. IsAnswer window form (prepared_of prepared.answer)
        prepared.channel) }
    ensures message { IfOk result (λ prepared. SaysAnswer (plain_standing standing.now)
        (choose place) prepared.answer.octets.octets) }
    ensures settled { (form : Option Form)
        → decided (plain_standing standing.now) form ≡ choose place → number_in form ≡ number
        → IfOk result (λ prepared.
        SettledBy (choose place) form prepared.settled prepared.answer.waits) }
    ensures kind { IfOk result (λ prepared. prepared.answer.kind ≡ kind_of (choose place)) }
{
    let Some(offer) = standing.offers.get(place) else {
        unreachable!()
    };
    Ok(Prepared {
        answer: Answer {
            kind: Kind::Rpy,
            octets: choice_text(alloc, offer)?,
            waits: Wait::Nothing,
        },
        channel: Some(Channel::new(alloc, number, window)?),
        settled: Settled::PeerStarts {
            number,
            offer: place as u32,
        },
    })
}

/// What the grant of a close calls for, of this number and with this code.
fn prepare_close(alloc: Global, number: u32, code: u16) -> Result<Prepared, NoMemory>
    ensures answer { (size : ℕ) (standing : PlainStanding) (form : Option Form)
        → decided standing form ≡ grant_close
        → IfOk result (λ prepared. IsAnswer size form (prepared_of prepared.answer)
        prepared.channel) }
    ensures message { (standing : PlainStanding) → IfOk result (λ prepared.
        SaysAnswer standing grant_close prepared.answer.octets.octets) }
    ensures settled { (standing : PlainStanding) (form : Option Form)
        → decided standing form ≡ grant_close
        → number_in form ≡ number → code_in form ≡ code → IfOk result (λ prepared.
        SettledBy grant_close form prepared.settled prepared.answer.waits) }
    ensures kind { IfOk result (λ prepared. prepared.answer.kind ≡ kind_of grant_close) }
    ensures none { IfOk result (λ prepared. prepared.channel ≡ None) }
{
    Ok(Prepared {
        answer: Answer {
            kind: Kind::Rpy,
            octets: okay_text(alloc)?,
            waits: if number == 0 {
                Wait::All
            } else {
                Wait::Life(number)
            },
        },
        channel: None,
        settled: Settled::PeerCloses { number, code },
    })
}

/// The number of a start or a close; 0 in what is neither.
fn number_in(said: Option<&Mgmt>) -> u32
    ensures { result ≡ number_in (form_in (option_copied said.entry)) }
{
    match said {
        Some(Mgmt::Start { number, .. } | Mgmt::Close { number, .. }) => *number,
        Some(Mgmt::Greeting { .. } | Mgmt::Chosen { .. } | Mgmt::Okay | Mgmt::Fault { .. })
        | None => 0,
    }
}

/// The code of a close; 0 in what is none.
fn code_in(said: Option<&Mgmt>) -> u16
    ensures { result ≡ code_in (form_in (option_copied said.entry)) }
{
    match said {
        Some(Mgmt::Close { code, .. }) => *code,
        Some(
            Mgmt::Greeting { .. }
            | Mgmt::Start { .. }
            | Mgmt::Chosen { .. }
            | Mgmt::Okay
            | Mgmt::Fault { .. },
        )
        | None => 0,
    }
}
