//! The live channels of a session, the lowest number first.
//!
//! Which of them can send and which owe a SEQ is noted at each change of one, so the choice of what
//! goes out next looks at flags alone. No journal is kept: each call says what it did to the list.
ghost use Rattle.std.specs.Prelude.{◌≡◌, ◌≢◌, ◌<◌, ◌≤◌, ◌++◌, ◌==◌, [], ◌∷◌, ℕ, List, length, false, not, None, Some, Ok, is_some, is_err, IsSome, IfSome, IfNone, IfOk, IfErr, OnOk, OnErr, IsOk, slice_get, option_copied};
ghost use Rattle.std.specs.List.{list_any, position};
ghost use Rattle.beep_frame.specs.declared.head.Head.{Head as HeadValue};
ghost use Rattle.beep_history.specs.declared.journal.Side.{Side};
ghost use Rattle.beep_history.specs.Journal.{Item};
ghost use Rattle.beep_history.specs.Marks.{Mark};
ghost use Rattle.beep_history.specs.Windows.{is_bad_ack};
ghost use Rattle.beep_seq.specs.declared.limits.TheConstants.{MIN_WINDOW, MAX_WINDOW};
ghost use Rattle.beep_exchange.specs.Given.{next_asked_now};
ghost use Rattle.beep_outbox.specs.declared.outbox.TheConstants.{MAX_UNLIMITED};
ghost use Rattle.beep_outbox.specs.declared.give_error.GiveError.{GiveError as GiveErrorValue};
ghost use Rattle.beep_outbox.specs.Queue.{message_marks};
ghost use Rattle.beep_octets.specs.Held.{KeepsRoom};
ghost use Rattle.beep_channel.specs.declared.ask_error.AskError.{AskError as AskErrorValue};
ghost use Rattle.beep_channel.specs.Held.{Live, next_ask, next_reply, IsReply, ask_refusal, reply_refusal};
ghost use Rattle.beep_channel.specs.Stands.{Stands};
ghost use Rattle.beep_turns.specs.declared.turns.TheConstants.{MAX_CHANNELS};
ghost use Rattle.beep_lives.specs.Lives.{live_at, numbers, can_send, owes_seq, IsFirstOf, runs_of, receiving_of, has_begun, lives_judged};
ghost use Rattle.beep_lives.specs.Edits.{Begins, Arrives, Obeys, Sends, Tells, Gives, Takes, KeepsHeld, UsesRoom, AreNew, Edits, EditsWhere, Joins, Leaves};

use crate::flags::{note, owes_seq, put};
use beep_channel::{AskError, Channel};
use beep_frame::{Head, Kind, Rule, Seq};
use beep_inbox::Part;
use beep_octets::{NoMemory, Octets};
use beep_outbox::GiveError;
use beep_seq::BadAck;
use beep_turns::{MAX_CHANNELS, Turns, first};
use std::alloc::Global;
use std::marker::Model;

/// Channel zero and at most `MAX_CHANNELS` other live channels. Their list is made at once. The
/// place of the channel that was looked up last for a change is looked at first.
#[derive(Drop)]
pub struct Lives {
    turns: Turns,
    channels: Vec<Channel>,
    ready: Vec<bool>,
    due: Vec<bool>,
    last: usize,
}

impl Model for Lives {
    ghost use Rattle.std.specs.Prelude.{List, ◌<◌, vec_capacity};
    ghost use Rattle.beep_channel.specs.Held.{Live};
    ghost use Rattle.beep_turns.specs.declared.turns.TheConstants.{MAX_CHANNELS};
    ghost use Rattle.beep_lives.specs.Lives.{AreKept};

    ghost Value = { List Live };

    ghost view = { λ l. l.channels.items };

    ghost invariant = { λ l. AreKept l.turns l.channels.items l.ready.items l.due.items
        × (MAX_CHANNELS < vec_capacity l.channels)
        × (MAX_CHANNELS < vec_capacity l.ready)
        × (MAX_CHANNELS < vec_capacity l.due) };
}

impl Lives {
    ghost use Rattle.beep_octets.specs.Numbers.{numbers_32};
    ghost use Rattle.beep_lives.specs.Place.{IsLiveAt};

    /// Channel zero alone. `window` is the own window of channel zero in octets.
    pub fn new(alloc: Global, window: u32) -> Result<Lives, NoMemory>
        requires least { MIN_WINDOW ≤ window }
        requires greatest { window ≤ MAX_WINDOW }
        ensures { IfOk result (λ lives. AreNew window lives) }
    {
        let mut turns = Turns::new(alloc)?;
        let mut channels = Vec::with_capacity(alloc, MAX_CHANNELS + 1)?;
        let mut ready = Vec::with_capacity(alloc, MAX_CHANNELS + 1)?;
        let mut due = Vec::with_capacity(alloc, MAX_CHANNELS + 1)?;
        let zero = Channel::new(alloc, 0, window)?;
        turns.add(0);
        ready.push_reserved(zero.is_ready());
        due.push_reserved(owes_seq(&zero));
        channels.push_reserved(zero);
        Ok(Lives {
            turns,
            channels,
            ready,
            due,
            last: 0,
        })
    }

    // ---- looks

    /// The place of the channel of a number.
    fn find(&self, number: u32) -> Option<usize>
        ensures some { IfSome result (λ i. IsLiveAt number i self.now) }
        ensures none { IfNone result (live_at number self.now ≡ None) }
    {
        self.turns.find_near(number, self.last)
    }

    /// Whether channel zero or another of this number lives.
    pub fn is_live(&self, number: u32) -> bool
        ensures { result ≡ is_some (live_at number self.now) }
    {
        self.find(number).is_some()
    }

    /// How many live, channel zero included.
    pub fn len(&self) -> usize
        ensures { result ≡ length self.now }
    {
        self.channels.len()
    }

    /// The number at a place, counted from 0. The numbers ascend.
    pub fn place(&self, i: usize) -> Option<u32>
        ensures { result ≡ slice_get (numbers self.now) i }
    {
        self.turns.place(i)
    }

    /// The channel of a number.
    pub fn channel(&self, number: u32) -> Option<&Channel>
        ensures { option_copied result ≡ live_at number self.now }
    {
        match self.find(number) {
            None => None,
            Some(i) => Some(&self.channels[i]),
        }
    }

    /// Whether a frame of some channel can go.
    pub fn has_ready(&self) -> bool
        ensures { result ≡ list_any can_send self.now }
    {
        first(self.ready.as_slice()).is_some()
    }

    /// Whether a SEQ of some channel is due.
    pub fn has_due(&self) -> bool
        ensures { result ≡ list_any owes_seq self.now }
    {
        first(self.due.as_slice()).is_some()
    }

    // ---- a received frame

    /// The first rule that a received header breaks: `NoSuchChannel`, or of its channel's life.
    pub fn judge(&self, head: &Head) -> Option<Rule>
        ensures { result ≡ lives_judged self.now head.now }
    {
        match self.channel(head.channel) {
            None => Some(Rule::NoSuchChannel),
            Some(channel) => channel.judge(head),
        }
    }

    /// The header of the received frame that has begun in a channel and not arrived.
    pub fn receiving(&self, number: u32) -> Option<Head>
        ensures value { result ≡ receiving_of (live_at number self.now) }
        ensures begun { is_some result ≡ has_begun (live_at number self.now) }
    {
        match self.channel(number) {
            None => None,
            Some(channel) => channel.receiving(),
        }
    }

    /// Notes a received header in its channel.
    pub fn begin(&mut self, head: &Head)
        requires judged { lives_judged self.old head.now ≡ None }
        requires whole { has_begun (live_at head.now.channel self.old) ≡ false }
        ensures { Edits head.now.channel (Begins head.now) self.old self.new }
    {
        let Some(i) = self.find(head.channel) else {
            unreachable!()
        };
        self.last = i;
        let channel = &mut self.channels[i];
        channel.begin(head);
        note(&mut self.ready, &mut self.due, i, channel);
    }

    /// Makes room for what the next frame of a channel adds. Nothing happens where none has this
    /// number.
    pub fn make_room(&mut self, number: u32) -> Result<(), NoMemory>
        ensures ok { OnOk result (IfSome (live_at number self.new)
            (λ channel. 0 < channel.runs)) }
        ensures kept { EditsWhere (is_some (live_at number self.old)) number KeepsHeld
            self.old self.new }
    {
        let Some(i) = self.find(number) else {
            return Ok(());
        };
        // What can go out is as before.
        let channel = &mut self.channels[i];
        channel.make_room()
    }

    /// Notes that a received frame is whole, in the channel in which it began. False where that
    /// life has ended.
    pub fn arrive(&mut self, head: &Head, payload: &[u8]) -> Result<bool, NoMemory>
        requires begun { (begun : HeadValue)
            → receiving_of (live_at head.now.channel self.old) ≡ Some begun → begun ≡ head.now }
        requires sized { length payload.now ≡ head.now.size }
        ensures ok { IfOk result (λ arrived. EditsWhere arrived head.now.channel
            (Arrives head.now payload.now) self.old self.new) }
        ensures arrived { IfOk result (λ arrived.
            arrived ≡ has_begun (live_at head.now.channel self.old)) }
        ensures err { OnErr result (Edits head.now.channel KeepsHeld self.old self.new) }
        ensures succeeds { IfSome (live_at head.now.channel self.old)
            (λ channel. 0 < channel.runs) → IsOk result }
    {
        let Some(i) = self.find(head.channel) else {
            return Ok(false);
        };
        let channel = &mut self.channels[i];
        if channel.receiving().is_none() {
            return Ok(false);
        }
        let arrived = channel.arrive(payload);
        note(&mut self.ready, &mut self.due, i, channel);
        match arrived {
            Ok(()) => {}
            Err(error) => return Err(error),
        }
        Ok(true)
    }

    // ---- SEQs

    /// Obeys a SEQ of the peer in its channel. False where none has its number.
    pub fn acked(&mut self, seq: &Seq) -> Result<bool, BadAck>
        ensures ok { IfOk result (λ obeyed.
            EditsWhere obeyed seq.now.channel (Obeys seq.now) self.old self.new) }
        ensures obeyed { IfOk result (λ obeyed.
            obeyed ≡ is_some (live_at seq.now.channel self.old)) }
        ensures refused { IfSome (live_at seq.now.channel self.old) (λ channel.
            (size : ℕ) (past : List Item) (given taken : List Mark)
            → Stands size channel.held past given taken
            → is_err result ≡ is_bad_ack Side.Received past seq.now) }
        ensures none { live_at seq.now.channel self.old ≡ None → IsOk result }
        ensures err { OnErr result (self.new ≡ self.old) }
    {
        let Some(i) = self.find(seq.channel) else {
            return Ok(false);
        };
        let channel = &mut self.channels[i];
        let obeyed = channel.acked(seq);
        note(&mut self.ready, &mut self.due, i, channel);
        match obeyed {
            Ok(()) => {}
            Err(error) => return Err(error),
        }
        Ok(true)
    }

    /// The SEQ that goes out next: that of the lowest channel whose SEQ is due. It counts as sent.
    pub fn tell(&mut self) -> Option<Seq>
        ensures some { IfSome result (λ seq.
            Edits seq.channel (Tells seq) self.old self.new) }
        ensures first { IfSome result (λ seq. IsFirstOf owes_seq seq.channel self.old) }
        ensures none { is_some result ≡ list_any owes_seq self.old }
        ensures kept { IfNone result (self.new ≡ self.old) }
    {
        let Some(i) = first(self.due.as_slice()) else {
            return None
        };
        let channel = &mut self.channels[i];
        let seq = channel.seq_full();
        channel.seq_told();
        note(&mut self.ready, &mut self.due, i, channel);
        Some(seq)
    }

    // ---- an own frame

    /// Cuts the frame that goes out next: of the lowest channel that is ready, of at most `max`
    /// octets, which are appended to `out`. It takes no memory. The frame has then passed.
    #[inline(always)]
    pub fn cut(&mut self, max: u32, out: &mut Octets) -> Option<Head>
        requires most { 0 < max }
        requires room { max ≤ out.old.spare }
        ensures some { IfSome result (λ head.
            (payload : List ℕ) × (out.new.octets ≡ out.old.octets ++ payload)
            × Edits head.channel (Sends max head payload) self.old self.new) }
        ensures first { IfSome result (λ head. IsFirstOf can_send head.channel self.old) }
        ensures within { IfSome result (λ head. head.size ≤ max) }
        ensures room { IfSome result (λ head. KeepsRoom out.old out.new) }
        ensures none { is_some result ≡ list_any can_send self.old }
        ensures kept { IfNone result ((self.new ≡ self.old) × (out.new ≡ out.old)) }
    {
        let Some(number) = self.turns.next(self.ready.as_slice()) else {
            return None
        };
        let Some(i) = self.turns.find_near(number, self.last) else {
            unreachable!()
        };
        self.last = i;
        let channel = &mut self.channels[i];
        let head = channel.cut(max, out);
        note(&mut self.ready, &mut self.due, i, channel);
        Some(head)
    }

    // ---- giving and taking in one channel

    /// Makes room in a channel for so many more messages, of at most so many octets together.
    pub fn reserve(&mut self, number: u32, octets: usize, messages: usize) -> Result<(), NoMemory>
        requires live { IsSome (live_at number self.old) }
        ensures ok { OnOk result (IfSome (live_at number self.new) (λ channel.
            (octets ≤ channel.octets) × (messages ≤ channel.messages))) }
        ensures kept { Edits number KeepsHeld self.old self.new }
        ensures runs { runs_of (live_at number self.new) ≡ runs_of (live_at number self.old) }
    {
        let Some(i) = self.find(number) else {
            unreachable!()
        };
        let channel = &mut self.channels[i];
        let reserved = channel.reserve(octets, messages);
        note(&mut self.ready, &mut self.due, i, channel);
        reserved
    }

    /// Gives a request in a channel, and answers its position modulo 2^64. The refusals are tried
    /// in the order TooManyAsked, Full, NoMemory.
    pub fn give_ask(&mut self, number: u32, octets: &[u8]) -> Result<u64, AskError>
        requires live { IsSome (live_at number self.old) }
        requires fits { number ≡ 0 → length octets.now ≤ MAX_UNLIMITED }
        ensures ok { IfSome (live_at number self.old) (λ channel. OnOk result (Edits number
            (Gives (message_marks (next_ask channel.held octets.now))) self.old self.new)) }
        ensures value { IfSome (live_at number self.old) (λ channel. IfOk result (λ position.
            position ≡ next_asked_now channel.held.life.given)) }

        ensures accepted { IfSome (live_at number self.old) (λ channel. OnOk result
            (ask_refusal channel.held (length octets.now) ≡ None)) }
        ensures refused { IfSome (live_at number self.old) (λ channel. IfErr result (λ error.
            error ≢ AskErrorValue.NoMemory
            → ask_refusal channel.held (length octets.now) ≡ Some error)) }
        ensures err { OnErr result (Edits number KeepsHeld self.old self.new) }

        ensures succeeds { IfSome (live_at number self.old) (λ channel.
            length octets.now ≤ channel.octets → 0 < channel.messages
            → ask_refusal channel.held (length octets.now) ≡ None → IsOk result) }
        ensures used { OnOk result
            (Edits number (UsesRoom (length octets.now)) self.old self.new) }
    {
        let Some(i) = self.find(number) else {
            unreachable!()
        };
        self.last = i;
        let channel = &mut self.channels[i];
        let position = channel.give_ask(octets);
        note(&mut self.ready, &mut self.due, i, channel);
        position
    }

    /// Gives a message of the reply to the oldest request that a channel owes: a RPY or an ERR, one
    /// of many ANS, or the NUL that ends them.
    #[inline(always)]
    pub fn give_reply(&mut self, number: u32, kind: Kind, octets: &[u8]) -> Result<(), GiveError>
        requires live { IsSome (live_at number self.old) }
        requires may { IfSome (live_at number self.old) (λ channel.
            IsReply channel.held kind octets.now) }
        requires fits { number ≡ 0 → length octets.now ≤ MAX_UNLIMITED }
        ensures ok { IfSome (live_at number self.old) (λ channel. OnOk result (Edits number
            (Gives (message_marks (next_reply channel.held kind octets.now)))
            self.old self.new)) }

        ensures accepted { IfSome (live_at number self.old) (λ channel. OnOk result
            (reply_refusal channel.held (length octets.now) ≡ None)) }
        ensures refused { IfSome (live_at number self.old) (λ channel. IfErr result (λ error.
            error ≢ GiveErrorValue.NoMemory
            → reply_refusal channel.held (length octets.now) ≡ Some error)) }
        ensures err { OnErr result (Edits number KeepsHeld self.old self.new) }
        ensures succeeds { IfSome (live_at number self.old) (λ channel.
            length octets.now ≤ channel.octets → 0 < channel.messages
            → reply_refusal channel.held (length octets.now) ≡ None → IsOk result) }
        ensures used { OnOk result
            (Edits number (UsesRoom (length octets.now)) self.old self.new) }
    {
        let Some(i) = self.find(number) else {
            unreachable!()
        };
        self.last = i;
        let channel = &mut self.channels[i];
        let given = channel.give_reply(kind, octets);
        note(&mut self.ready, &mut self.due, i, channel);
        given
    }

    /// Takes the first octets of the first untaken run of a channel, as many as `buf` holds, and
    /// its end where that follows. It takes no memory.
    pub fn take(&mut self, number: u32, buf: &mut [u8]) -> Option<Part>
        requires live { IsSome (live_at number self.old) }
        requires some { 0 < length buf.old }
        requires fits { length buf.old < numbers_32 }
        ensures some { IfSome result (λ part.
            Edits number (Takes part buf.old buf.new) self.old self.new) }
        ensures none { IfNone result (IfSome (live_at number self.old)
            (λ channel. channel.held.inbox ≡ [])) }
        ensures kept { IfNone result (self.new ≡ self.old) }
        ensures same { IfNone result (buf.new ≡ buf.old) }
    {
        let Some(i) = self.find(number) else {
            unreachable!()
        };
        let channel = &mut self.channels[i];
        let part = channel.take(buf);
        note(&mut self.ready, &mut self.due, i, channel);
        part
    }

    // ---- lives

    /// Adds a channel of another number, whose life begins. It takes no memory.
    pub fn add(&mut self, channel: Channel)
        requires room { length self.old ≤ MAX_CHANNELS }
        requires fresh { live_at channel.held.number self.old ≡ None }
        ensures { Joins channel self.old self.new }
    {
        let number = channel.number();
        self.turns.add(number);
        let Some(i) = self.turns.find(number) else {
            unreachable!()
        };
        put(&mut self.ready, i, channel.is_ready());
        put(&mut self.due, i, owes_seq(&channel));
        put(&mut self.channels, i, channel);
    }

    /// Removes the channel of a number, whose life ends. Nothing happens where none has it.
    pub fn remove(&mut self, number: u32)
        requires above { 0 < number }
        ensures { Leaves number self.old self.new }
    {
        let Some(i) = self.find(number) else {
            return;
        };
        self.turns.remove(number);
        self.ready.remove(i);
        self.due.remove(i);
        let _ended = self.channels.remove(i);
    }
}
