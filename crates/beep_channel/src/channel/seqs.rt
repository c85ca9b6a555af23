//! SEQs: those of the peer, and the own one that is due (RFC 3081, section 3.1).
ghost use Rattle.std.specs.Prelude.{◌≡◌, ◌<◌, ℕ, List, not, is_some, is_err, None, Some, OnOk, OnErr};
ghost use Rattle.beep_history.specs.declared.journal.Side.{Side};
ghost use Rattle.beep_history.specs.Journal.{Item, told};
ghost use Rattle.beep_history.specs.Marks.{Mark};
ghost use Rattle.beep_history.specs.Windows.{is_bad_ack};
ghost use Rattle.beep_channel.specs.Held.{seq_due_of, full_seq_of, told_held, SameRoom};
ghost use Rattle.beep_channel.specs.Stands.{Stands, StandsWith, SameIn, IsTold, has_seq_due};

use super::Channel;
use beep_frame::Seq;
use beep_seq::BadAck;

impl Channel {
    /// Obeys a SEQ of the peer.
    pub fn acked(&mut self, seq: &Seq) -> Result<(), BadAck>
        ensures ok { OnOk result (StandsWith self.old.held self.new.held
            (told Side.Received seq.now)) }
        ensures refused { (size : ℕ) (past : List Item) (given taken : List Mark)
            → Stands size self.old.held past given taken
            → is_err result ≡ is_bad_ack Side.Received past seq.now }
        ensures err { OnErr result (self.new ≡ self.old) }
        ensures same { SameIn self.old.held self.new.held }
        ensures under { self.new.held.life.received.under_way
            ≡ self.old.held.life.received.under_way }
        ensures room { SameRoom self.old self.new }
    {
        self.sends.acked(seq.ackno, seq.window)
    }

    /// The SEQ that is due, or None where it would open less than half a window.
    pub fn seq_due(&self) -> Option<Seq>
        ensures value { result ≡ seq_due_of self.now.held }
        ensures due { (size : ℕ) (past : List Item) (given taken : List Mark)
            → Stands size self.now.held past given taken
            → is_some result ≡ has_seq_due size self.now.held past }
    {
        if self.receives.due().is_none() {
            return None;
        }
        Some(self.seq_full())
    }

    /// The SEQ with the full window, whether it is due or not.
    pub fn seq_full(&self) -> Seq
        ensures { result ≡ full_seq_of self.now.held }
    {
        let (ackno, window) = self.receives.full();
        Seq {
            channel: self.number,
            ackno,
            window,
        }
    }

    /// Notes that the SEQ of `seq_full` was sent.
    pub fn seq_told(&mut self)
        ensures value { self.new.held ≡ told_held self.old.held }
        ensures stands { (size : ℕ) (past : List Item) (given taken : List Mark)
            → Stands size self.old.held past given taken
            → IsTold size self.old.held self.new.held past given taken
            (full_seq_of self.old.held) }
        ensures room { SameRoom self.old self.new }
    {
        self.receives.told();
    }
}
