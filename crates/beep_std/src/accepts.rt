//! One accept, which goes on where it fails for one peer or for want of room.

use std::io::{self, ErrorKind};
use std::net::{OpenListener, SocketAddr};
use std::time::{Clock, Duration};

/// How many peers in a row may be passed over in one accept, because they were gone before it.
pub const PEERS: u32 = 1_000_000;

/// How often one accept waits for room in the system's tables.
pub const WAITS: u32 = 100;

/// How long it waits each time, in milliseconds.
pub const WAIT_MILLIS: u64 = 100;

/// What an accept that failed means.
#[derive(Clone, Copy, Debug, PartialEq, Eq)]
enum Meaning {
    /// No accept will succeed.
    Never,
    /// The system has no room now for another descriptor, or no memory.
    NoRoom,
    /// This peer is gone, or can't be reached, or isn't let in. Another may come.
    OnePeer,
}

/// Accepts one peer, and gives its address too. Peers that were gone before they were accepted are
/// passed over, up to [`PEERS`]; where there is no room it waits, up to [`WAITS`] times.
pub(crate) fn accept_one<C: Clock, L: OpenListener>(
    clock: &C,
    listener: &L,
) -> io::Result<(L::Stream, SocketAddr)> {
    let mut waits = 0;
    for _ in 0..PEERS {
        match listener.accept() {
            Ok(given) => return Ok(given),
            Err(why) => match meaning_of(why) {
                Meaning::OnePeer => {}
                Meaning::NoRoom if waits < WAITS => {
                    waits += 1;
                    clock.sleep(Duration::from_millis(WAIT_MILLIS));
                }
                Meaning::Never | Meaning::NoRoom => return Err(why),
            },
        }
    }
    Err(io::Error::from(ErrorKind::ConnectionAborted))
}

/// What an error of accept(2) means. Linux passes on errors that wait on the new link, among them
/// EPROTO, ECONNABORTED, EHOSTUNREACH, ENETDOWN, ENETUNREACH, ENONET, EHOSTDOWN, ENOPROTOOPT,
/// EOPNOTSUPP and ETIMEDOUT, and EPERM where a rule keeps this peer out: so all are of one peer but
/// those that can be of none.
fn meaning_of(why: io::Error) -> Meaning {
    match why.raw_os_error() {
        // EBADF, EFAULT, EINVAL, ENOTSOCK
        Some(9 | 14 | 22 | 88) => Meaning::Never,
        // ENOMEM, ENFILE, EMFILE, ENOBUFS
        Some(12 | 23 | 24 | 105) => Meaning::NoRoom,
        Some(_) | None => Meaning::OnePeer,
    }
}

#[cfg(test)]
mod tests;
