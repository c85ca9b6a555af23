//! What an end is to do.
ghost use Rattle.std.specs.Prelude.{◌≡◌, [], true, chars, IfOk};
ghost use Rattle.std.specs.List.{list_all};
ghost use Rattle.beep_chars.specs.Characters.{is_allowed};
ghost use Rattle.beep_talk.specs.Plan.{HasAllowedUris};
ghost use Rattle.beep_talk.specs.Plain.{plain_plan};
ghost use Rattle.log_cases.specs.declared.plans.TheConstants.{URI};

use beep_chars::{Text, are_allowed};
use beep_decide::Offer;
use beep_journal::Role;
use beep_lawful::Terms;
use beep_talk::{Command, Plan};
use case_lines::Bad;
use prof_raw::Entries;
use std::alloc::Global;

/// The URI of the profile RAW (RFC 3195, section 6.2).
const URI: &str = "http://xml.resource.org/profiles/syslog/RAW";

/// The window, and the most octets of a frame, of an end for which nothing is set.
const WINDOW: u32 = 4096;

const PIECE: u32 = 1024;

/// A `listener` that offers RAW, or a `sender` of the line `one`.
pub(crate) fn plan_of(alloc: Global, word: &str) -> Result<Plan, Bad>
    ensures { IfOk result (λ plan. HasAllowedUris (plain_plan plan)) }
{
    if !are_allowed(URI) {
        return Err(Bad::Field);
    }
    match word {
        "sender" => {
            let mut plan = bare_plan(alloc, Command::Send, Role::Initiator)?;
            plan.lines.push(b"one")?;
            Ok(plan)
        }
        "listener" => {
            let mut plan = bare_plan(alloc, Command::Listen, Role::Listener)?;
            let uri = Text::of(alloc, URI)?;
            match plan.offers.push(Offer { uri, tuning: false }) {
                Ok(()) => Ok(plan),
                Err(_) => Err(Bad::NoMemory),
            }
        }
        _ => Err(Bad::Field),
    }
}

/// A plan without offers and lines.
fn bare_plan(alloc: Global, command: Command, role: Role) -> Result<Plan, Bad>
    requires allowed { list_all is_allowed (chars URI.now) ≡ true }
    ensures uris { IfOk result (λ plan. HasAllowedUris (plain_plan plan)) }
    ensures offers { IfOk result (λ plan. plan.offers.items ≡ []) }
    ensures raw_uri { IfOk result (λ plan. plan.raw_uri ≡ chars URI.now) }
{
    Ok(Plan {
        command,
        terms: Terms {
            role,
            window: WINDOW,
            piece: PIECE,
        },
        offers: Vec::new(alloc),
        raw_uri: Text::of(alloc, URI)?,
        lines: Entries::new(alloc),
    })
}
