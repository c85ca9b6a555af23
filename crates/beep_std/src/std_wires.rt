//! Links over TCP.
ghost use Rattle.std.specs.Prelude.{◌≡◌, ◌<◌, ◌≤◌, ◌++◌, ◌∷◌, [], true, false, length, IfOk, OnOk, OnErr, vec_len, vec_capacity};
ghost use Rattle.beep_wires.specs.Counts.{next_count};
ghost use Rattle.beep_std.specs.Sockets.{no_sockets, socket_given, quiets_after as counted};

use crate::dials::dial_one;
use crate::fault::{Side, fault_text};
use crate::listeners::Listeners;
use crate::socket::{Notes, Socket, read_at, shut_at, write_at};
use crate::telling::Progress;
use beep_wires::{Account, Failed, Got, WireError, Wires, next_count};
use std::alloc::Global;
use std::io::Eprint;
use std::marker::Model;
use std::net::{Net, SocketAddr, TcpListener, TcpStream};
use std::time::Clock;

/// Links over TCP. The first accept on a port of an address begins to wait for peers there, and that
/// goes on until these links are let go. A host is dialled by its name or its address, at each of
/// its addresses in turn. Octets are sent as they are written. What is told of a session goes to
/// standard error.
#[derive(Drop)]
pub struct StdWires<R: Net<Listener = TcpListener, Stream = TcpStream> + Clock + Eprint + Drop> {
    net: R,
    alloc: Global,
    links: Vec<Socket>,
    listeners: Listeners,
    accept_faults: u64,
    dial_faults: u64,
    quiets: u64,
    why: Option<String>,
    progress: Progress,
}

impl<R: Net<Listener = TcpListener, Stream = TcpStream> + Clock + Eprint + Drop> Model
    for StdWires<R> {
    ghost use Rattle.beep_std.specs.Sockets.{Sockets};

    ghost Value = { Sockets };

    ghost view = { λ w. record {
      links = w.links.items;
      accepts = w.accept_faults;
      dials = w.dial_faults;
      quiets = w.quiets;
    } };
}

impl<R: Net<Listener = TcpListener, Stream = TcpStream> + Clock + Eprint + Drop> StdWires<R> {
    ghost use Rattle.beep_std.specs.Sockets.{link_at, sockets_read, sockets_written, sockets_shut};
    ghost use Rattle.beep_wires.specs.Got.{GotWithin};
    ghost use Rattle.beep_wires.specs.declared.count.TheConstants.{COUNT_MAX};

    /// No link yet. It takes no memory, and opens nothing. With `shows_progress` a line on standard
    /// error, which is then a terminal, says how many octets were written on a link that was
    /// dialled.
    pub fn new(alloc: Global, net: R, shows_progress: bool) -> StdWires<R>
        ensures { result ≡ no_sockets }
    {
        StdWires {
            net,
            alloc,
            links: Vec::new(alloc),
            listeners: Listeners::new(alloc),
            accept_faults: 0,
            dial_faults: 0,
            quiets: 0,
            why: None,
            progress: Progress::new(shows_progress),
        }
    }

    /// The last call for a link or on one that failed, and why, in words for people.
    pub fn why(&self) -> Option<&str> {
        match &self.why {
            Some(why) => Some(why.as_str()),
            None => None,
        }
    }

    /// What is known of a link that begins now.
    fn notes(&self, side: Side, peer: SocketAddr) -> Notes {
        Notes {
            side,
            peer,
            began: self.net.monotonic().ok(),
            octets: 0,
            failed: None,
        }
    }

    /// Keeps what failed on a link.
    fn keep_fault(&mut self, link: u32)
        ensures { self.new ≡ self.old }
    {
        let Some(socket) = self.links.get(link as usize) else {
            return;
        };
        let notes = socket.notes();
        if let Some(failed) = notes.failed {
            self.why = fault_text(self.alloc, u64::from(link) + 1, notes.peer, failed);
        }
    }

    /// Shows how far a link has come, where that is to be shown.
    fn show_progress(&mut self, link: u32)
        ensures { self.new ≡ self.old }
    {
        if !self.progress.shows() {
            return;
        }
        let Some(socket) = self.links.get(link as usize) else {
            return;
        };
        let notes = socket.notes();
        if notes.side == Side::Dialled {
            self.progress.show(&self.net, notes.octets);
        }
    }

    /// A link that was accepted. A failure isn't counted yet.
    fn accept_link(&mut self, bind: &str, port: u16) -> Result<u32, WireError>
        ensures number { IfOk result (λ link. link ≡ length self.old.links) }
        ensures ok { OnOk result (self.new ≡ record self.old {
          links = self.old.links
              ++ socket_given ∷ [];
        }) }
        ensures err { OnErr result (self.new ≡ self.old) }
    {
        let link = next_link(&mut self.links)?;
        match self.listeners.accept(&self.net, bind, port) {
            Ok((stream, peer)) => {
                let notes = self.notes(Side::Accepted, peer);
                self.links.push_reserved(Socket::new(stream, notes));
                Ok(link)
            }
            Err(why) => {
                self.why = why.text(self.alloc, bind, port);
                Err(why.error())
            }
        }
    }

    /// A link that was dialled, likewise.
    fn dial_link(&mut self, host: &str, port: u16) -> Result<u32, WireError>
        ensures number { IfOk result (λ link. link ≡ length self.old.links) }
        ensures ok { OnOk result (self.new ≡ record self.old {
          links = self.old.links
              ++ socket_given ∷ [];
        }) }
        ensures err { OnErr result (self.new ≡ self.old) }
    {
        let link = next_link(&mut self.links)?;
        match dial_one(&self.net, host, port) {
            Ok((stream, peer)) => {
                let notes = self.notes(Side::Dialled, peer);
                self.links.push_reserved(Socket::new(stream, notes));
                Ok(link)
            }
            Err(why) => {
                self.why = why.text(self.alloc, host, port);
                Err(why.error())
            }
        }
    }

    fn read_link(&mut self, link: u32, buf: &mut [u8]) -> Result<Got, Failed>
        requires alive { (link_at self.old link).is_open ≡ true }
        ensures within { GotWithin result buf.new }
        ensures after { self.new ≡ sockets_read link result self.old }
        ensures quiets { self.old.quiets ≤ COUNT_MAX }
    {
        let answer = read_at(&mut self.links, link as usize, buf);
        self.quiets = quiets_after(self.quiets, answer);
        if let Err(Failed) = answer {
            self.keep_fault(link);
        }
        answer
    }

    fn write_link(&mut self, link: u32, bytes: &[u8]) -> Result<usize, Failed>
        requires alive { (link_at self.old link).is_open ≡ true }
        ensures within { IfOk result (λ n. (0 < n) × (n ≤ length bytes.now)) }
        ensures after { self.new ≡ sockets_written link result self.old }
    {
        let answer = write_at(&mut self.links, link as usize, bytes);
        match answer {
            Ok(_) => self.show_progress(link),
            Err(Failed) => self.keep_fault(link),
        }
        answer
    }

    fn shut_link(&mut self, link: u32)
        requires { (link_at self.old link).is_open ≡ true }
        ensures { self.new ≡ sockets_shut link self.old }
    {
        shut_at(&mut self.links, link as usize);
    }
}

fn quiets_after(quiets: u64, answer: Result<Got, Failed>) -> u64
    ensures { result ≡ counted answer quiets }
{
    match answer {
        Ok(Got::Quiet) => next_count(quiets),
        Ok(Got::Bytes(_) | Got::End) | Err(Failed) => quiets,
    }
}

/// The number of the next link, for which there is room then.
fn next_link(links: &mut Vec<Socket>) -> Result<u32, WireError>
    ensures number { IfOk result (λ link. link ≡ length links.old.items) }
    ensures room { OnOk result (vec_len links.new < vec_capacity links.new) }
    ensures kept { links.new.items ≡ links.old.items }
{
    if links.reserve(1).is_err() {
        return Err(WireError::NoMemory);
    }
    match u32::try_from(links.len()) {
        Ok(link) => Ok(link),
        Err(_) => Err(WireError::Failed),
    }
}

impl<R: Net<Listener = TcpListener, Stream = TcpStream> + Clock + Eprint + Drop> Wires
    for StdWires<R> {
    ghost use Rattle.std.specs.Prelude.{ℕ};
    ghost use Rattle.beep_std.specs.Sockets.{link_at, counts_of, unknown_asks, unknown_story, no_lender, sockets_asked, sockets_read, sockets_written, sockets_shut};
    ghost use Rattle.beep_wires.specs.Links.{accept as accept_of, dial as dial_of, IsFresh, SameBeside, LeavesLinks, open_among, asked_by, Asks, given_after, Faults};
    ghost use Rattle.beep_wires.specs.Got.{GotWithin, read_entries, write_entries, gives_end, Quiets};
    ghost use Rattle.beep_wires.specs.Log.{Logs, Enters};

    ghost state = { link_at };

    ghost counts = { counts_of };

    ghost asked = { λ _. unknown_asks };

    ghost story = { λ _. unknown_story };

    ghost lent = { λ _. no_lender };

    ghost in_story = { λ w link. tt };

    fn accept(&mut self, bind: &str, port: u16) -> Result<u32, WireError>
        ensures after { self.new ≡ sockets_asked (accept_of bind.now port) result self.old }
        // What all links ensure.
        ensures number { IfOk result (λ link. link ≡ (counts_of self.old).given) }
        ensures fresh { IfOk result (λ link. IsFresh (link_at self.new link)) }
        ensures others { LeavesLinks result (link_at self.old) (link_at self.new) }
        ensures asks { Asks unknown_asks unknown_asks (asked_by (accept_of bind.now port)
            (open_among (link_at self.old) (counts_of self.old).given) result) }
        ensures given { (counts_of self.new).given ≡ given_after (counts_of self.old).given result }
        ensures failed { Faults result (counts_of self.old).accepts (counts_of self.new).accepts }
        ensures dials { (counts_of self.new).dials ≡ (counts_of self.old).dials }
        ensures quiets { (counts_of self.new).quiets ≡ (counts_of self.old).quiets }
        ensures same_story { unknown_story ≡ unknown_story }
        ensures same_lent { no_lender ≡ no_lender }
    {
        let answer = self.accept_link(bind, port);
        if let Err(WireError::Failed) = answer {
            self.accept_faults = next_count(self.accept_faults);
        }
        answer
    }

    fn dial(&mut self, host: &str, port: u16) -> Result<u32, WireError>
        ensures after { self.new ≡ sockets_asked (dial_of host.now port) result self.old }
        // What all links ensure.
        ensures number { IfOk result (λ link. link ≡ (counts_of self.old).given) }
        ensures fresh { IfOk result (λ link. IsFresh (link_at self.new link)) }
        ensures others { LeavesLinks result (link_at self.old) (link_at self.new) }
        ensures asks { Asks unknown_asks unknown_asks (asked_by (dial_of host.now port)
            (open_among (link_at self.old) (counts_of self.old).given) result) }
        ensures given { (counts_of self.new).given ≡ given_after (counts_of self.old).given result }
        ensures failed { Faults result (counts_of self.old).dials (counts_of self.new).dials }
        ensures accepts { (counts_of self.new).accepts ≡ (counts_of self.old).accepts }
        ensures quiets { (counts_of self.new).quiets ≡ (counts_of self.old).quiets }
        ensures same_story { unknown_story ≡ unknown_story }
        ensures same_lent { no_lender ≡ no_lender }
    {
        let answer = self.dial_link(host, port);
        if let Err(WireError::Failed) = answer {
            self.dial_faults = next_count(self.dial_faults);
        }
        answer
    }

    fn read(&mut self, link: u32, buf: &mut [u8]) -> Result<Got, Failed>
        requires room { 0 < length buf.old }
        requires alive { (link_at self.old link).is_open ≡ true }
        requires going { (link_at self.old link).has_ended ≡ false }
        requires unfailed { (link_at self.old link).faults ≡ 0 }
        ensures after { self.new ≡ sockets_read link result self.old }
        // What all links ensure.
        ensures within { GotWithin result buf.new }
        ensures logged { Logs (link_at self.old link).log (link_at self.new link).log
            (read_entries result buf.new) }
        ensures entered { Enters link unknown_story unknown_story (read_entries result buf.new) }
        ensures still_open { (link_at self.new link).is_open ≡ true }
        ensures end { (link_at self.new link).has_ended ≡ gives_end result }
        ensures failed { OnErr result ((link_at self.new link).faults ≡ 1) }
        ensures unfailed { OnOk result
            ((link_at self.new link).faults ≡ (link_at self.old link).faults) }
        ensures kept { (link_at self.old link).faults ≤ (link_at self.new link).faults }
        ensures counted { (link_at self.new link).reads ≡ next_count (link_at self.old link).reads }
        ensures others { SameBeside link (link_at self.old) (link_at self.new) }
        ensures quiets { Quiets result (counts_of self.old).quiets (counts_of self.new).quiets }
        ensures counts { counts_of self.new
            ≡ record (counts_of self.old) { quiets = (counts_of self.new).quiets } }
        ensures same_asked { unknown_asks ≡ unknown_asks }
        ensures same_lent { no_lender ≡ no_lender }
    {
        self.read_link(link, buf)
    }

    fn write(&mut self, link: u32, bytes: &[u8]) -> Result<usize, Failed>
        requires some { 0 < length bytes.now }
        requires alive { (link_at self.old link).is_open ≡ true }
        requires unfailed { (link_at self.old link).faults ≡ 0 }
        ensures after { self.new ≡ sockets_written link result self.old }
        // What all links ensure.
        ensures within { IfOk result (λ n. (0 < n) × (n ≤ length bytes.now)) }
        ensures logged { Logs (link_at self.old link).log (link_at self.new link).log
            (write_entries result bytes.now) }
        ensures entered { Enters link unknown_story unknown_story (write_entries result bytes.now) }
        ensures still_open { (link_at self.new link).is_open ≡ true }
        ensures end { (link_at self.new link).has_ended ≡ (link_at self.old link).has_ended }
        ensures failed { OnErr result ((link_at self.new link).faults ≡ 1) }
        ensures unfailed { OnOk result
            ((link_at self.new link).faults ≡ (link_at self.old link).faults) }
        ensures kept { (link_at self.old link).faults ≤ (link_at self.new link).faults }
        ensures counted { (link_at self.new link).reads ≡ (link_at self.old link).reads }
        ensures others { SameBeside link (link_at self.old) (link_at self.new) }
        ensures same_counts { counts_of self.new ≡ counts_of self.old }
        ensures same_asked { unknown_asks ≡ unknown_asks }
        ensures same_lent { no_lender ≡ no_lender }
    {
        self.write_link(link, bytes)
    }

    fn tell(&self, link: u32, account: Account) {
        if let Some(socket) = self.links.get(link as usize) {
            self.progress
                .tell(&self.net, u64::from(link) + 1, socket.notes(), account);
        }
    }

    fn shut(&mut self, link: u32)
        requires alive { (link_at self.old link).is_open ≡ true }
        ensures after { self.new ≡ sockets_shut link self.old }
        // What all links ensure.
        ensures shut { link_at self.new link ≡ record (link_at self.old link) { is_open = false } }
        ensures others { SameBeside link (link_at self.old) (link_at self.new) }
        ensures same_counts { counts_of self.new ≡ counts_of self.old }
        ensures same_asked { unknown_asks ≡ unknown_asks }
        ensures same_story { unknown_story ≡ unknown_story }
        ensures same_lent { no_lender ≡ no_lender }
    {
        self.shut_link(link);
    }
}
