//! The requests of channel zero that wait for their reply.

use beep_asked::{Request, Waiting};
use beep_chars::Text;
use beep_frame::Kind;
use beep_mgmt::{Encoding, Mgmt, Profile, Profiles};
use beep_octets::{NoMemory, Octets};
use case_lines::{Bad, Fields, number_of, put_number, put_yes};
use std::alloc::Global;

/// Both queues, and whether channel 1 is live.
#[derive(Drop)]
struct Ends {
    received: Waiting,
    sent: Waiting,
    live: bool,
}

/// What is asked and answered after the greetings: whether channel 1 is live, how many requests
/// wait, whether a close of 1 does, and whether one of 0 does; of the received ones and of the sent
/// ones.
pub(crate) fn asked(alloc: Global, fields: &mut Fields<'_>, out: &mut Octets) -> Result<(), Bad> {
    let steps = fields.next()?;
    let mut ends = new_ends(alloc)?;
    play(alloc, &mut ends, steps, out)
}

fn play(alloc: Global, ends: &mut Ends, steps: &str, out: &mut Octets) -> Result<(), Bad> {
    step_of(alloc, ends, "R:grant")?;
    step_of(alloc, ends, "S:grant")?;
    for step in steps.split(' ') {
        step_of(alloc, ends, step)?;
    }
    put_ends(ends, out)
}

fn new_ends(alloc: Global) -> Result<Ends, NoMemory> {
    Ok(Ends {
        received: Waiting::new(alloc)?,
        sent: Waiting::new(alloc)?,
        live: false,
    })
}

fn put_ends(ends: &Ends, out: &mut Octets) -> Result<(), Bad> {
    put_yes(ends.live, out)?;
    put_waiting(&ends.received, out)?;
    put_waiting(&ends.sent, out)
}

fn put_waiting(waiting: &Waiting, out: &mut Octets) -> Result<(), Bad> {
    put_number(waiting.len() as u64, out)?;
    put_yes(waiting.closes(1), out)?;
    put_yes(waiting.is_leaving(), out)?;
    Ok(())
}

/// What a side does, `R` or `S`: `start` of channel 1, `close0` or `close1`, `grant` or `refuse` of
/// its oldest request. `-` is nothing.
fn step_of(alloc: Global, ends: &mut Ends, step: &str) -> Result<(), Bad> {
    let live = ends.live;
    if let Some(act) = step.strip_prefix("R:") {
        ends.live = act_of(alloc, &mut ends.received, &mut ends.sent, live, act)?;
    } else if let Some(act) = step.strip_prefix("S:") {
        ends.live = act_of(alloc, &mut ends.sent, &mut ends.received, live, act)?;
    } else if step != "-" {
        return Err(Bad::Field);
    }
    Ok(())
}

/// Does what one side does, and says whether channel 1 is live then.
fn act_of(
    alloc: Global,
    asker: &mut Waiting,
    other: &mut Waiting,
    live: bool,
    act: &str,
) -> Result<bool, Bad> {
    match act {
        "start" => ask(asker, start(alloc)?, false)?,
        "grant" => return Ok(grant_oldest(alloc, asker, other, live)?),
        "refuse" => {
            let _refused = asker.pop();
        }
        _ => close(alloc, asker, live, act)?,
    }
    Ok(live)
}

fn close(alloc: Global, asker: &mut Waiting, live: bool, act: &str) -> Result<(), Bad> {
    let Some(number) = act.strip_prefix("close") else {
        return Err(Bad::Field);
    };
    let number = number_of(number)?;
    let said = Mgmt::Close {
        number,
        code: 200,
        note: Text::new(alloc),
    };
    ask(asker, said, number > 0 && live)?;
    Ok(())
}

fn ask(waiting: &mut Waiting, said: Mgmt, names: bool) -> Result<(), NoMemory> {
    waiting.reserve(1)?;
    waiting.push(Request {
        said: Some(said),
        implied: false,
        names,
    });
    Ok(())
}

fn profile(alloc: Global) -> Result<Profile, NoMemory> {
    Ok(Profile {
        uri: Text::of(alloc, "urn:x")?,
        encoding: Encoding::Plain,
        content: Octets::new(alloc),
        readable: true,
    })
}

fn start(alloc: Global) -> Result<Mgmt, NoMemory> {
    let mut profiles = Profiles::new(alloc);
    profiles.push(profile(alloc)?)?;
    Ok(Mgmt::Start {
        number: 1,
        server: None,
        profiles,
    })
}

fn greeting(alloc: Global) -> Mgmt {
    Mgmt::Greeting {
        features: None,
        localize: None,
        profiles: Profiles::new(alloc),
    }
}

/// What grants a request that says this.
fn grant(alloc: Global, said: &Option<Mgmt>) -> Result<Mgmt, NoMemory> {
    match said {
        Some(Mgmt::Start { .. }) => Ok(Mgmt::Chosen {
            profile: profile(alloc)?,
        }),
        Some(
            Mgmt::Greeting { .. }
            | Mgmt::Chosen { .. }
            | Mgmt::Close { .. }
            | Mgmt::Okay
            | Mgmt::Fault { .. },
        ) => Ok(Mgmt::Okay),
        None => Ok(greeting(alloc)),
    }
}

/// A positive reply to the oldest request of `asker`.
fn grant_oldest(
    alloc: Global,
    asker: &mut Waiting,
    other: &mut Waiting,
    live: bool,
) -> Result<bool, NoMemory> {
    let Some(oldest) = asker.oldest() else {
        return Ok(live);
    };
    let reply = Some(grant(alloc, &oldest.said)?);
    if !asker.fits(Kind::Rpy, &reply) || asker.fits(Kind::Err, &reply) {
        return Ok(live);
    }
    Ok(granted(asker, other, live))
}

fn granted(asker: &mut Waiting, other: &mut Waiting, live: bool) -> bool {
    let Some(request) = asker.pop() else {
        return live;
    };
    asker.clear_by(&request);
    other.clear_by(&request);
    match request.said {
        Some(Mgmt::Start { .. }) => true,
        Some(_) | None => live && !request.names,
    }
}

/// Of each side the implied request waits at first: how many wait, whether there is none, whether a
/// greeting answers the oldest, and whether one does once that has its reply.
pub(crate) fn implied(alloc: Global, out: &mut Octets) -> Result<(), Bad> {
    let mut waiting = Waiting::new(alloc)?;
    put_implied(&mut waiting, &Some(greeting(alloc)), out)
}

fn put_implied(waiting: &mut Waiting, reply: &Option<Mgmt>, out: &mut Octets) -> Result<(), Bad> {
    put_number(waiting.len() as u64, out)?;
    put_yes(waiting.is_empty(), out)?;
    put_yes(waiting.fits(Kind::Rpy, reply), out)?;
    let _answered = waiting.pop();
    put_yes(waiting.fits(Kind::Rpy, reply), out)?;
    Ok(())
}
