//! A call of the system for a link or on one that failed, and why, in words for people.
//! No contract says anything of it.

use beep_wires::WireError;
use std::alloc::Global;
use std::fmt::{self, Display, Formatter};
use std::io;
use std::net::SocketAddr;

/// Which end asked for a link.
#[derive(Clone, Copy, Debug, PartialEq, Eq)]
pub(crate) enum Side {
    Accepted,
    Dialled,
}

/// A call for a link or on one.
#[derive(Clone, Copy, Debug, PartialEq, Eq)]
pub(crate) enum Call {
    LookUp,
    Dial,
    /// To take the port of an address, and begin to listen there.
    Listen,
    Accept,
    Read,
    Write,
}

impl Display for Call {
    fn fmt<W: fmt::Write>(&self, f: &mut Formatter<W>) -> fmt::Result {
        f.write_str(match self {
            Call::LookUp => "look-up",
            Call::Dial => "dial",
            Call::Listen => "listen",
            Call::Accept => "accept",
            Call::Read => "read",
            Call::Write => "write",
        })
    }
}

/// Why no link was given.
#[derive(Clone, Copy)]
pub(crate) enum Unlinked {
    Failed(Call, io::Error),
    NoMemory,
}

impl Unlinked {
    /// What a caller is told of it.
    pub(crate) fn error(self) -> WireError {
        match self {
            Unlinked::Failed(_, _) => WireError::Failed,
            Unlinked::NoMemory => WireError::NoMemory,
        }
    }

    /// It in words, with the host or address and the port, where it is a failure and memory is left.
    pub(crate) fn text(self, alloc: Global, host: &str, port: u16) -> Option<String> {
        match self {
            Unlinked::Failed(call, why) => {
                let of = preposition(call);
                format!(in alloc; "{call} {of} {host} port {port}: {why}").ok()
            }
            Unlinked::NoMemory => None,
        }
    }
}

/// What stands between a call for a link and the address.
fn preposition(call: Call) -> &'static str {
    match call {
        Call::Listen | Call::Accept => "on",
        Call::LookUp | Call::Dial | Call::Read | Call::Write => "of",
    }
}

/// A call on the link of this session that failed, in words, where memory is left.
pub(crate) fn fault_text(
    alloc: Global,
    session: u64,
    peer: SocketAddr,
    failed: (Call, io::Error),
) -> Option<String> {
    let (call, why) = failed;
    format!(in alloc; "{call} in session {session} with {peer}: {why}").ok()
}
