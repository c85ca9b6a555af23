//! The ports on which peers are waited for.
ghost use Rattle.std.specs.Prelude.{◌<◌, ◌≤◌, length, IfOk};

use crate::accepts::accept_one;
use crate::fault::{Call, Unlinked};
use std::alloc::Global;
use std::net::{Net, SocketAddr, TcpListener, TcpStream};
use std::time::Clock;

/// A port of an address, and the socket that waits on it.
#[derive(Drop)]
struct Listening {
    bind: String,
    port: u16,
    listener: TcpListener,
}

/// The ports of the accepts so far. Each keeps its socket, so that a peer that comes between two
/// accepts waits for the second.
#[derive(Drop)]
pub(crate) struct Listeners {
    alloc: Global,
    list: Vec<Listening>,
}

impl Listeners {
    /// No port. It takes no memory.
    pub(crate) fn new(alloc: Global) -> Listeners {
        Listeners {
            alloc,
            list: Vec::new(alloc),
        }
    }

    /// Waits for a peer on this port of this address, and gives its address too.
    pub(crate) fn accept<R>(
        &mut self,
        net: &R,
        bind: &str,
        port: u16,
    ) -> Result<(TcpStream, SocketAddr), Unlinked>
    where
        R: Net<Listener = TcpListener, Stream = TcpStream> + Clock,
    {
        let at = self.listen(net, bind, port)?;
        match accept_one(net, &self.list[at].listener) {
            Ok(given) => Ok(given),
            Err(why) => Err(Unlinked::Failed(Call::Accept, why)),
        }
    }

    /// The place of the port among those that are waited on, after which it is.
    fn listen<R>(&mut self, net: &R, bind: &str, port: u16) -> Result<usize, Unlinked>
    where
        R: Net<Listener = TcpListener, Stream = TcpStream>,
        ensures { IfOk result (λ at. at < length self.new.list.items) }
    {
        let at = place_of(&self.list, bind, port);
        if at == self.list.len() {
            if self.list.reserve(1).is_err() {
                return Err(Unlinked::NoMemory);
            }
            let Ok(name) = String::from_str(self.alloc, bind) else {
                return Err(Unlinked::NoMemory);
            };
            let listener = match TcpListener::bind(net, (bind, port)) {
                Ok(listener) => listener,
                Err(why) => return Err(Unlinked::Failed(Call::Listen, why)),
            };
            self.list.push_reserved(Listening {
                bind: name,
                port,
                listener,
            });
        }
        Ok(at)
    }
}

/// The place of a port of an address, or where it comes.
fn place_of(list: &Vec<Listening>, bind: &str, port: u16) -> usize
    ensures { result ≤ length list.now.items }
{
    let mut at = 0;
    while at < list.len() && !is_at(&list[at], bind, port) {
        at += 1;
    }
    at
}

/// Whether it is of this port and this address.
fn is_at(one: &Listening, bind: &str, port: u16) -> bool {
    one.port == port && one.bind.as_str() == bind
}
