//! What a program gives and takes on a live channel (RFC 3080, section 2.1).
ghost use Rattle.std.specs.Prelude.{◌≡◌, ◌≢◌, ◌<◌, [], ℕ, List, length, None, Some, true, false, is_some, IfSome, IfNone, IfOk, IfErr, OnOk, OnErr};
ghost use Rattle.beep_giving.specs.beep_frame.specs.declared.kind.Kind.{Kind as KindValue};
ghost use Rattle.beep_giving.specs.beep_frame.specs.Frame.{is_msg, is_ans, is_reply};
ghost use Rattle.beep_giving.specs.beep_frame.specs.Modulo.{modulo_2_64};
ghost use Rattle.beep_giving.specs.beep_history.specs.Journal.{Item};
ghost use Rattle.beep_giving.specs.beep_outbox.specs.declared.give_error.GiveError.{GiveError as GiveErrorValue};
ghost use Rattle.beep_giving.specs.beep_channel.specs.declared.ask_error.AskError.{AskError as AskErrorValue};
ghost use Rattle.beep_giving.specs.beep_channel.specs.Fits.{may_follow, is_shaped};
ghost use Rattle.beep_giving.specs.beep_channel.specs.Stands.{ends_of};
ghost use Rattle.beep_giving.specs.beep_inbox.specs.Untaken.{IsTaken};
ghost use Rattle.beep_giving.specs.beep_lives.specs.Lives.{live_at};
ghost use Rattle.beep_giving.specs.beep_standing.specs.Standing.{Marks};
ghost use Rattle.beep_giving.specs.beep_peer.specs.Peering.{IsPeer};
ghost use Rattle.beep_giving.specs.beep_peer.specs.Waiting.{IsStuck};
ghost use Rattle.beep_giving.specs.beep_upright.specs.Upright.{IsUpright};
ghost use Rattle.beep_giving.specs.Giving.{ask_refusal_at, reply_refusal_at};
ghost use Rattle.beep_giving.specs.Looks.{owes_of, answers_of, inbox_of};

use super::Session;
use beep_giving::beep_channel::AskError;
use beep_giving::beep_frame::Kind;
use beep_giving::beep_inbox::Part;
use beep_giving::beep_outbox::GiveError;

impl Session {
    ghost use Rattle.beep_giving.specs.beep_octets.specs.Numbers.{numbers_32};
    ghost use Rattle.beep_session.specs.Lawfully.{KeepsUpright, terms_of};
    ghost use Rattle.beep_session.specs.Channels.{IsOpen, is_closing, next_answer, IsStill, Gives, Takes};

    /// Whether an own close of the live life of this number waits.
    pub(crate) fn is_closing(&self, n: u32) -> bool
        ensures { result ≡ is_closing n self.now }
    {
        self.peer.management.mine().closes(n) || self.peer.management.acts().closes(n)
    }

    /// Whether a wholly taken request of a channel lacks a whole reply.
    pub(crate) fn owes(&self, n: u32) -> bool
        requires open { IsOpen n self.now }
        ensures { result ≡ owes_of (live_at n self.now.peer.lives) }
    {
        beep_giving::owes(&self.peer, n)
    }

    /// How many answers were given to the oldest of these, modulo 2^31.
    pub(crate) fn begun_answers(&self, n: u32) -> Option<u32>
        requires open { IsOpen n self.now }
        ensures { result ≡ answers_of (live_at n self.now.peer.lives) }
    {
        beep_giving::begun_answers(&self.peer, n)
    }

    /// The number of the next answer to it.
    pub(crate) fn next_answer(&self, n: u32) -> u32
        requires open { IsOpen n self.now }
        ensures { result ≡ next_answer n self.now }
    {
        match beep_giving::begun_answers(&self.peer, n) {
            Some(answers) => answers,
            None => 0,
        }
    }

    /// Gives a request, and answers its position modulo 2^64.
    pub(crate) fn ask(&mut self, n: u32, octets: &[u8]) -> Result<u64, AskError>
        requires open { IsOpen n self.old }
        ensures ok { OnOk result (Gives n KindValue.Msg octets.now self.old self.new) }
        ensures value { (fed rest : List ℕ) (journal : List Item) (given taken : Marks)
            → IsPeer self.old.limits.window fed rest journal given taken self.old.peer
            → IfOk result (λ position. position ≡ modulo_2_64 (ends_of is_msg (given n))) }
        ensures upright { (fed rest : List ℕ) (journal : List Item) (given taken : Marks)
            → is_closing n self.old ≡ false
            → IsPeer self.old.limits.window fed rest journal given taken self.old.peer
            → IsUpright (terms_of self.old) journal self.old.peer.lives self.old.peer.management
            → IsUpright (terms_of self.old) journal self.new.peer.lives
            self.new.peer.management }

        ensures accepted { OnOk result
            (ask_refusal_at self.old.peer n (length octets.now) ≡ None) }
        ensures refused { IfErr result (λ error. error ≢ AskErrorValue.NoMemory
            → ask_refusal_at self.old.peer n (length octets.now) ≡ Some error) }
        ensures err { OnErr result (IsStill self.old self.new) }
        ensures open { IsOpen n self.new }
        ensures closing { is_closing n self.new ≡ is_closing n self.old }
    {
        beep_giving::ask(&mut self.peer, n, octets)
    }

    /// Gives a message of the reply to the oldest request that is owed.
    pub(crate) fn give_reply(&mut self, n: u32, kind: Kind, octets: &[u8]) -> Result<(), GiveError>
        requires open { IsOpen n self.old }
        requires owed { owes_of (live_at n self.old.peer.lives) ≡ true }
        requires reply { is_reply kind ≡ true }
        requires follows { is_some (answers_of (live_at n self.old.peer.lives)) ≡ true
            → may_follow (Some KindValue.Ans) kind ≡ true }
        requires shaped { is_shaped kind octets.now ≡ true }
        ensures ok { OnOk result (Gives n kind octets.now self.old self.new) }
        ensures upright { KeepsUpright self.old self.new }

        // An answer leaves its request owed.
        ensures owes { is_ans kind ≡ true
            → OnOk result (owes_of (live_at n self.new.peer.lives) ≡ true) }

        ensures accepted { OnOk result
            (reply_refusal_at (live_at n self.old.peer.lives) (length octets.now) ≡ None) }
        ensures refused { IfErr result (λ error. error ≢ GiveErrorValue.NoMemory
            → reply_refusal_at (live_at n self.old.peer.lives) (length octets.now)
            ≡ Some error) }
        ensures err { OnErr result (IsStill self.old self.new) }
        ensures owed { OnErr result (owes_of (live_at n self.new.peer.lives)
            ≡ owes_of (live_at n self.old.peer.lives)) }
        ensures answers { OnErr result (answers_of (live_at n self.new.peer.lives)
            ≡ answers_of (live_at n self.old.peer.lives)) }
        ensures open { IsOpen n self.new }
    {
        beep_giving::give_reply(&mut self.peer, n, kind, octets)
    }

    /// Takes the first octets of the first untaken run, as many as `buf` holds, and its end where
    /// that follows. It takes no memory.
    pub(crate) fn take(&mut self, n: u32, buf: &mut [u8]) -> Option<Part>
        requires open { IsOpen n self.old }
        requires some { 0 < length buf.old }
        requires fits { length buf.old < numbers_32 }
        ensures some { IfSome result (λ part. Takes n part buf.new self.old self.new) }
        ensures upright { KeepsUpright self.old self.new }
        ensures stuck { IfSome result (λ part.
            IsStuck self.new.peer.lives self.new.peer.management) }
        ensures part { IfSome result (λ part. IsTaken part
            (inbox_of (live_at n self.old.peer.lives)) (inbox_of (live_at n self.new.peer.lives))
            buf.old buf.new) }
        ensures none { IfNone result (inbox_of (live_at n self.old.peer.lives) ≡ []) }
        ensures kept { IfNone result (self.new ≡ self.old) }
        ensures buffer { IfNone result (buf.new ≡ buf.old) }
        ensures open { IsOpen n self.new }
        ensures closing { is_closing n self.new ≡ is_closing n self.old }
    {
        beep_giving::take(&mut self.peer, n, buf)
    }
}
