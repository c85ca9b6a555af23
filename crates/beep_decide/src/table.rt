//! What a request of channel zero is answered, row by row (RFC 3080, sections 2.3.1.2 and 2.3.1.3).
//!
//! No session runs this: it is the table in code, so that it can be tried on examples.
ghost use Rattle.std.specs.Prelude.{◌≡◌, ◌<◌, length, map, IfOk, IfSome, option_map};
ghost use Rattle.std.specs.Option.{option_copied};
ghost use Rattle.beep_mgmt.specs.Form.{plain_profile};
ghost use Rattle.beep_journal.specs.Plain.{form_in};
ghost use Rattle.beep_decide.specs.Decide.{is_among, is_used, used_count, offer_of, first_offered, has_other_encoding, decide_offer, decide_profile, decide_start, decide_close, decide};
ghost use Rattle.beep_decide.specs.Plain.{plain_offer, plain_standing, decision_of};

use crate::decision::{Answer, Offer, Placed, Standing};
use crate::numbers::{may_start, other_role};
use beep_mgmt::{
    BAD_PARAMETERS, BAD_SYNTAX, BUSY, Encoding, INVALID, Mgmt, NOT_IMPLEMENTED, NOT_TAKEN, Profile,
};
use beep_octets::{NoMemory, Octets};
use beep_turns::MAX_CHANNELS;
use std::alloc::Global;

/// Whether a number is one of these.
fn is_among(number: u32, numbers: &[u32]) -> bool
    ensures { result ≡ is_among number numbers.now }
{
    match numbers {
        [] => false,
        [other, others @ ..] => *other == number || is_among(number, others),
    }
}

/// Whether a number is live or starting.
fn is_used(standing: &Standing, number: u32) -> bool
    ensures { result ≡ is_used (plain_standing standing.now) number }
{
    is_among(number, &standing.live) || is_among(number, &standing.starting)
}

/// How many numbers are live or starting.
fn used_count(standing: &Standing) -> usize
    ensures { result ≡ used_count (plain_standing standing.now) }
{
    standing.live.len() + standing.starting.len()
}

/// The offer of a profile's URI, and its place among these.
fn offer_of(profile: &Profile, offers: &[Offer]) -> Option<Placed>
    ensures value { result ≡ offer_of (plain_profile profile.now).uri (map plain_offer offers.now) }
    ensures within { IfSome result (λ found. found.place < length offers.now) }
{
    match offers {
        [] => None,
        [offer, others @ ..] => {
            if offer.uri.same(&profile.uri) {
                return Some(Placed {
                    place: 0,
                    tuning: offer.tuning,
                });
            }
            match offer_of(profile, others) {
                None => None,
                Some(found) => Some(Placed {
                    place: found.place + 1,
                    tuning: found.tuning,
                }),
            }
        }
    }
}

/// The first listed profile that is offered.
fn first_offered<'p>(offers: &[Offer], listed: &'p [Profile]) -> Option<&'p Profile>
    ensures { option_map (λ profile. plain_profile profile.now) result
        ≡ first_offered (map plain_offer offers.now) (map plain_profile listed.now) }
{
    match listed {
        [] => None,
        [profile, others @ ..] => {
            if offer_of(profile, offers).is_some() {
                Some(profile)
            } else {
                first_offered(offers, others)
            }
        }
    }
}

/// Whether a profile has an encoding that isn't known.
fn has_other_encoding(encoding: Encoding) -> bool
    ensures { result ≡ has_other_encoding encoding }
{
    match encoding {
        Encoding::Plain | Encoding::Base64 => false,
        Encoding::Other => true,
    }
}

/// The answer to a start whose first offered profile is this one, of this offer.
fn decide_offer(
    alloc: Global,
    standing: &Standing,
    profile: &Profile,
    offer: Option<Placed>,
) -> Result<Answer, NoMemory>
    ensures { IfOk result (λ answer. decision_of answer
        ≡ decide_offer (plain_standing standing.now) (plain_profile profile.now) offer) }
{
    let Some(offer) = offer else {
        return Ok(Answer::Refuse(NOT_TAKEN));
    };
    if has_other_encoding(profile.encoding) {
        Ok(Answer::Refuse(NOT_IMPLEMENTED))
    } else if !profile.readable {
        Ok(Answer::Refuse(BAD_PARAMETERS))
    } else if !offer.tuning {
        Ok(Answer::Choose(offer.place))
    } else if 0 < used_count(standing) {
        Ok(Answer::Refuse(NOT_TAKEN))
    } else {
        let mut content = Octets::new(alloc);
        content.extend(profile.content.as_slice())?;
        Ok(Answer::Tune(offer.place, content))
    }
}

/// The answer to a start of these profiles that nothing else refuses.
fn decide_profile(
    alloc: Global,
    standing: &Standing,
    listed: &[Profile],
) -> Result<Answer, NoMemory>
    ensures { IfOk result (λ answer. decision_of answer
        ≡ decide_profile (plain_standing standing.now)
        (first_offered (plain_standing standing.now).offers (map plain_profile listed.now))) }
{
    match first_offered(&standing.offers, listed) {
        None => Ok(Answer::Refuse(NOT_TAKEN)),
        Some(profile) => {
            let offer = offer_of(profile, &standing.offers);
            decide_offer(alloc, standing, profile, offer)
        }
    }
}

/// The answer to a start.
fn decide_start(
    alloc: Global,
    standing: &Standing,
    number: u32,
    listed: &[Profile],
) -> Result<Answer, NoMemory>
    ensures { IfOk result (λ answer. decision_of answer
        ≡ decide_start (plain_standing standing.now) number (map plain_profile listed.now)) }
{
    if standing.leaving {
        Ok(Answer::Refuse(NOT_TAKEN))
    } else if !may_start(other_role(standing.role), number) {
        Ok(Answer::Refuse(INVALID))
    } else if is_used(standing, number) {
        Ok(Answer::Refuse(NOT_TAKEN))
    } else if MAX_CHANNELS <= used_count(standing) {
        Ok(Answer::Refuse(BUSY))
    } else {
        decide_profile(alloc, standing, listed)
    }
}

/// The answer to a close.
fn decide_close(standing: &Standing, number: u32) -> Answer
    ensures { decision_of result ≡ decide_close (plain_standing standing.now) number }
{
    let names = number == 0 || is_among(number, &standing.live);
    if names && !is_among(number, &standing.closing) {
        Answer::GrantClose
    } else {
        Answer::Refuse(NOT_TAKEN)
    }
}

/// What a request of channel zero is answered that has come whole and says this, or can't be read.
pub fn decide(
    alloc: Global,
    standing: &Standing,
    request: Option<&Mgmt>,
) -> Result<Answer, NoMemory>
    ensures { IfOk result (λ answer. decision_of answer
        ≡ decide (plain_standing standing.now) (form_in (option_copied request.entry))) }
{
    match request {
        Some(
            Mgmt::Start {
                number,
                profiles,
                ..
            },
        ) => decide_start(alloc, standing, *number, profiles.as_slice()),
        Some(Mgmt::Close { number, .. }) => Ok(decide_close(standing, *number)),
        Some(Mgmt::Greeting { .. } | Mgmt::Chosen { .. } | Mgmt::Okay | Mgmt::Fault { .. })
        | None => Ok(Answer::Refuse(BAD_SYNTAX)),
    }
}
