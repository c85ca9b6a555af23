//! The windows of one life.
ghost use Rattle.std.specs.Prelude.{◌≤◌};

use beep_octets::Octets;
use beep_seq::{INITIAL_WINDOW, MAX_WINDOW, MIN_WINDOW, RecvWindow, SendWindow};
use case_lines::{Bad, Fields, number_of, put_number, put_word, put_yes};

/// The window of this end, the octets that arrive at once, those of them that are taken, and what
/// is done then.
pub(crate) fn recv(fields: &mut Fields<'_>, out: &mut Octets) -> Result<(), Bad> {
    let size = fields.number()?;
    let arrived = fields.number()?;
    let taken = fields.number()?;
    if size < MIN_WINDOW || MAX_WINDOW < size || INITIAL_WINDOW < arrived || arrived < taken {
        return Err(Bad::Field);
    }
    let mut window = window_after(size, arrived, taken);
    for step in fields.next()?.split(' ') {
        recv_step(&mut window, step, out)?;
    }
    Ok(())
}

fn window_after(size: u32, arrived: u32, taken: u32) -> RecvWindow
    requires least { MIN_WINDOW ≤ size }
    requires greatest { size ≤ MAX_WINDOW }
    requires fits { arrived ≤ INITIAL_WINDOW }
    requires waits { taken ≤ arrived }
{
    let mut window = RecvWindow::new(size);
    window.arrived(arrived);
    window.taken(taken);
    window
}

/// `?4097`: whether so many octets fit. `due`, `full`: the ackno and the window of that SEQ.
/// `told`: the full SEQ is sent. `expect`: the number that the next frame is to have.
fn recv_step(window: &mut RecvWindow, step: &str, out: &mut Octets) -> Result<(), Bad> {
    if let Some(count) = step.strip_prefix('?') {
        put_yes(window.fits(number_of(count)?), out)?;
        return Ok(());
    }
    match step {
        "due" => put_due(window.due(), out),
        "full" => put_due(Some(window.full()), out),
        "expect" => put(window.expect(), out),
        "told" => {
            window.told();
            Ok(())
        }
        _ => Err(Bad::Field),
    }
}

fn put_due(due: Option<(u32, u32)>, out: &mut Octets) -> Result<(), Bad> {
    let Some((ackno, window)) = due else {
        put_word("none", out)?;
        return Ok(());
    };
    put(ackno, out)?;
    put(window, out)
}

fn put(number: u32, out: &mut Octets) -> Result<(), Bad> {
    put_number(number as u64, out)?;
    Ok(())
}

/// What is done with the window of the peer.
pub(crate) fn send(fields: &mut Fields<'_>, out: &mut Octets) -> Result<(), Bad> {
    let mut window = SendWindow::new();
    for step in fields.next()?.split(' ') {
        send_step(&mut window, step, out)?;
    }
    Ok(())
}

/// `+100`: so many octets are sent. `40/4096`: a SEQ with this ackno and window comes. `room`: how
/// many octets may be sent.
fn send_step(window: &mut SendWindow, step: &str, out: &mut Octets) -> Result<(), Bad> {
    if step == "room" {
        return put(window.room(), out);
    }
    if let Some(count) = step.strip_prefix('+') {
        return spend(window, number_of(count)?);
    }
    match step.split_once('/') {
        Some((ackno, size)) => acked(window, number_of(ackno)?, number_of(size)?, out),
        None => Err(Bad::Field),
    }
}

fn spend(window: &mut SendWindow, count: u32) -> Result<(), Bad> {
    if window.room() < count {
        return Err(Bad::Field);
    }
    window.spend(count);
    Ok(())
}

fn acked(window: &mut SendWindow, ackno: u32, size: u32, out: &mut Octets) -> Result<(), Bad> {
    match window.acked(ackno, size) {
        Ok(()) => put_word("ok", out)?,
        Err(_) => put_word("bad", out)?,
    }
    Ok(())
}
