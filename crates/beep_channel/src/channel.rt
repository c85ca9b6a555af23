//! One life of a channel: what was given and not sent, what arrived and was not taken, and what is
//! kept of the rest.
//!
//! A received frame is noted twice: `begin` at the end of its header, once `judge` has found no
//! rule that it breaks, and `arrive` once it is whole. An own frame is cut, and has passed as `cut`
//! returns. A history is never kept: each call says what it makes of every history for which the
//! channel stood.
ghost use Rattle.std.specs.Prelude.{◌≡◌, ◌<◌, ◌≤◌, ◌==◌, [], ℕ, List, ◌&&◌, length, nat_lt, None, Some, IfOk, if◌then◌else◌};
ghost use Rattle.beep_frame.specs.declared.head.TheConstants.{MAX_NUMBER};
ghost use Rattle.beep_history.specs.Journal.{Item, opening};
ghost use Rattle.beep_history.specs.Marks.{Mark};
ghost use Rattle.beep_seq.specs.declared.limits.TheConstants.{MIN_WINDOW, MAX_WINDOW};
ghost use Rattle.beep_channel.specs.Held.{limit_of, is_held_drained};
ghost use Rattle.beep_channel.specs.Stands.{Stands};

use beep_exchange::Exchange;
use beep_frame::MAX_NUMBER;
use beep_history::MAX_MESSAGE;
use beep_inbox::Inbox;
use beep_octets::NoMemory;
use beep_outbox::Outbox;
use beep_seq::{RecvWindow, SendWindow, SeqNo};
use std::alloc::Global;
use std::marker::Model;

mod giving;
mod receiving;
mod sending;
mod seqs;

/// One end of one life of a channel.
#[derive(Drop)]
pub struct Channel {
    number: u32,
    exchange: Exchange,
    outbox: Outbox,
    seqno: SeqNo,
    sends: SendWindow,
    receives: RecvWindow,
    inbox: Inbox,
}

impl Model for Channel {
    ghost use Rattle.std.specs.Prelude.{◌≡◌, ℕ, List};
    ghost use Rattle.beep_history.specs.Journal.{Item};
    ghost use Rattle.beep_history.specs.Marks.{Mark};
    ghost use Rattle.beep_channel.specs.Held.{Live, limit_of};
    ghost use Rattle.beep_channel.specs.Stands.{Stands};

    ghost Value = { Live };

    ghost view = { λ c. record {
      held = record {
        number = c.number;
        life = c.exchange;
        queue = c.outbox.messages;
        seqno = c.seqno;
        sends = c.sends;
        receives = c.receives;
        inbox = c.inbox.runs;
      };
      runs = c.inbox.places;
      octets = c.outbox.spare;
      messages = c.outbox.places;
    } };

    ghost invariant = { λ c. (c.outbox.limit ≡ limit_of c.number)
        × (c.inbox.window ≡ c.receives.size)
        × ∥ ((size : ℕ) × (past : List Item) × (given : List Mark) × (taken : List Mark)
        × Stands size (record {
          number = c.number;
          life = c.exchange;
          queue = c.outbox.messages;
          seqno = c.seqno;
          sends = c.sends;
          receives = c.receives;
          inbox = c.inbox.runs;
        }) past given taken) ∥₁ };
}

impl Channel {
    /// A life in which nothing has happened, or that of channel zero, whose implied requests have
    /// passed. `window` is the own window in octets. It takes room for as many untaken octets.
    pub fn new(alloc: Global, number: u32, window: u32) -> Result<Channel, NoMemory>
        requires number { number ≤ MAX_NUMBER }
        requires least { MIN_WINDOW ≤ window }
        requires greatest { window ≤ MAX_WINDOW }
        ensures stands { IfOk result (λ channel.
            Stands window channel.held (if number == 0 then opening else []) [] []) }
        ensures number { IfOk result (λ channel. channel.held.number ≡ number) }
    {
        let exchange = Exchange::new(alloc, number == 0)?;
        let outbox = Outbox::new(alloc, limit_of(number))?;
        let inbox = Inbox::new(alloc, window)?;
        Ok(Channel {
            number,
            exchange,
            outbox,
            seqno: SeqNo::new(0),
            sends: SendWindow::new(),
            receives: RecvWindow::new(window),
            inbox,
        })
    }

    /// The channel's number.
    pub fn number(&self) -> u32
        ensures { result ≡ self.now.held.number }
    {
        self.number
    }

    /// Whether a mark of the life is unsent.
    fn has_unsent(&self) -> bool
        ensures { result ≡ nat_lt 0 (length self.now.held.queue) }
    {
        self.outbox.has_next()
    }

    /// Whether the life has no unsent mark, no untaken mark, no message or frame under way, no own
    /// request without a wholly taken reply, and no received request without a wholly sent reply.
    pub fn is_drained(&self) -> bool
        ensures { result ≡ is_held_drained self.now.held }
    {
        !self.has_unsent()
            && self.inbox.is_empty()
            && self.exchange.sent_waiting() == 0
            && self.exchange.received_waiting() == 0
            && self.exchange.asked() == 0
            && self.exchange.first_owed().is_none()
    }
}

/// The limit of the unsent octets of a channel.
fn limit_of(number: u32) -> Option<u32>
    ensures { result ≡ limit_of number }
{
    if number == 0 { None } else { Some(MAX_MESSAGE) }
}
