//! One dial.

use crate::fault::{Call, Unlinked};
use std::io::{self, ErrorKind};
use std::net::{Net, SocketAddr, TcpListener, TcpStream, ToSocketAddrs};

/// Dials each address of a host in turn, and gives the one that answered too. Of several that failed
/// the last is told.
pub(crate) fn dial_one<R>(
    net: &R,
    host: &str,
    port: u16,
) -> Result<(TcpStream, SocketAddr), Unlinked>
where
    R: Net<Listener = TcpListener, Stream = TcpStream>,
{
    let peers = match (host, port).to_socket_addrs(net) {
        Ok(peers) => peers,
        Err(why) => return Err(Unlinked::Failed(Call::LookUp, why)),
    };
    let mut last = Unlinked::Failed(Call::LookUp, io::Error::from(ErrorKind::NotFound));
    for peer in peers {
        match net.connect(peer) {
            Ok(stream) => return Ok((stream, peer)),
            Err(why) => last = Unlinked::Failed(Call::Dial, why),
        }
    }
    Err(last)
}
