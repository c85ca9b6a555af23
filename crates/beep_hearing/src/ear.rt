//! The received half of a session: a decoder, what waits for its end, and the rule that was broken.
ghost use Rattle.std.specs.Prelude.{◌≡◌, ℕ, List, [], ◌∷◌, ◌++◌, ◌+◌, ◌-◌, ◌<◌, ◌≤◌, ◌==◌, true, false, length, take, None, Some, Ok, IfOk, OnOk, IfSome, is_some};
ghost use Rattle.beep_standing.specs.beep_frame.specs.declared.head.Head.{Head as HeadValue};
ghost use Rattle.beep_standing.specs.beep_frame.specs.declared.rule.Rule.{Rule as RuleValue};
ghost use Rattle.beep_standing.specs.beep_frame.specs.declared.limits.TheConstants.{MAX_PAYLOAD};
ghost use Rattle.beep_standing.specs.beep_text.specs.declared.limits.TheConstants.{MAX_TEXT};
ghost use Rattle.beep_standing.specs.beep_history.specs.declared.journal.Side.{Side};
ghost use Rattle.beep_standing.specs.beep_history.specs.Journal.{Item, began, passed, told};
ghost use Rattle.beep_standing.specs.beep_history.specs.Marks.{previous};
ghost use Rattle.beep_standing.specs.beep_history.specs.Broken.{under_way};
ghost use Rattle.beep_standing.specs.beep_journal.specs.Broken.{none_tunes, broken_head, broken_seq};
ghost use Rattle.beep_standing.specs.beep_channel.specs.Held.{Live};
ghost use Rattle.beep_standing.specs.beep_lives.specs.Lives.{live_at, has_begun};
ghost use Rattle.beep_standing.specs.Standing.{Marks, AreLiveBy};

use crate::hear::{drop_untaken, hear_frame, hear_head, hear_seq};
use crate::heard::Heard;
use crate::stopped::Stopped;
use crate::text::ZeroText;
use beep_standing::beep_frame::{Decoder, FrameRef, Head, MAX_PAYLOAD, Rule, Seq, Step};
use beep_standing::beep_lives::Lives;
use beep_standing::beep_octets::NoMemory;
use std::alloc::Global;

/// What a session keeps of the octets that it is fed, beside its live channels.
#[derive(Drop)]
pub struct Ear {
    decoder: Decoder,
    text: ZeroText,
    heard: bool,
    used: u64,
    under: Option<Head>,
    waits: Option<Head>,
    broken: Option<Stopped>,
}

impl Ear {
    ghost use Rattle.beep_standing.specs.beep_frame.specs.Modulo.{modulo_2_64};
    ghost use Rattle.beep_hearing.specs.declared.heard.Heard.{Heard as HeardValue};
    ghost use Rattle.beep_hearing.specs.declared.stopped.Stopped.{Stopped as StoppedValue};
    ghost use Rattle.beep_hearing.specs.Hears.{Hears, IsEar, Waits, Passes, PassesBy, KeepsOthers, KeepsZeroRoom};
    ghost use Rattle.beep_hearing.specs.Answers.{Answers, is_going, IsHeld, IsReached, IsWaiting, broken_at};
    ghost use Rattle.beep_hearing.specs.Left.{IfUnder, IsWhole, MayPass, Gathers, heard_by, last_place, stopped_at};

    /// An ear to which nothing was fed. It takes room for one payload and for the text of channel
    /// zero.
    pub fn new(alloc: Global) -> Result<Ear, NoMemory>
        ensures { IfOk result (λ ear. Hears [] [] [] ear) }
    {
        let decoder = Decoder::new(alloc, MAX_PAYLOAD)?;
        let text = ZeroText::new(alloc)?;
        Ok(Ear {
            decoder,
            text,
            heard: false,
            used: 0,
            under: None,
            waits: None,
            broken: None,
        })
    }

    // ---- looks

    /// The octets used since the last whole frame or SEQ, modulo 2^64. After a broken rule those
    /// up to its octet.
    pub fn left(&self) -> u64
        ensures stands { (fed rest : List ℕ) (journal : List Item)
            → Hears fed rest journal self.now → result ≡ modulo_2_64 (length rest) }
        ensures waiting { (size : ℕ) (fed : List ℕ) (journal : List Item) (given taken : Marks)
            (head : HeadValue) (payload : List ℕ) (channels : List Live)
            → Waits size fed journal given taken head payload self.now channels → result ≡ 0 }
        ensures broken { IfSome self.now.broken (λ stopped. result ≡ stopped.left) }
    {
        match self.broken {
            Some(stopped) => stopped.left,
            None => self.decoder.left(),
        }
    }

    /// Whether there are no such octets.
    pub fn between_frames(&self) -> bool
        ensures stands { (fed rest : List ℕ) (journal : List Item)
            → Hears fed rest journal self.now → result ≡ (length rest == 0) }
        ensures waiting { (size : ℕ) (fed : List ℕ) (journal : List Item) (given taken : Marks)
            (head : HeadValue) (payload : List ℕ) (channels : List Live)
            → Waits size fed journal given taken head payload self.now channels → result ≡ true }
        ensures broken { IfSome self.now.broken (λ stopped. result ≡ (stopped.left == 0)) }
    {
        self.left() == 0
    }

    /// The octets so far of the message of channel zero that is under way or waits; none where it
    /// has more than `MAX_TEXT`.
    pub fn text(&self) -> &[u8]
        ensures value { result.now ≡ self.now.text.octets }
        ensures few { length result.now ≤ MAX_TEXT }
    {
        self.text.as_slice()
    }

    /// The frame of channel zero that waits.
    pub fn frame(&self) -> FrameRef<'_>
        requires whole { self.now.decoder.whole ≡ true }
        ensures { (size : ℕ) (fed : List ℕ) (journal : List Item) (given taken : Marks)
            (head : HeadValue) (payload : List ℕ) (channels : List Live)
            → Waits size fed journal given taken head payload self.now channels
            → (result.head ≡ head) × (result.payload.now ≡ payload) }
    {
        self.decoder.frame()
    }

    /// The header of the frame of channel zero that waits.
    pub fn waiting(&self) -> Option<Head>
        ensures { result ≡ self.now.waits }
    {
        self.waits
    }

    /// The rule that was broken and its place, as each feed answers them.
    pub fn broken(&self) -> Option<(Rule, u64)>
        ensures { result ≡ broken_at self.now.broken }
    {
        match self.broken {
            Some(stopped) => Some((stopped.rule, stopped.place)),
            None => None,
        }
    }

    // ---- the frame that waits

    /// The frame of channel zero that waits arrives, and its octets count as taken. What its
    /// message says is still to be done. It takes no memory.
    pub fn pass_zero(&mut self, lives: &mut Lives)
        requires waits { IsWaiting self.old lives.old }
        ensures hears { (size : ℕ) (fed : List ℕ) (journal : List Item) (given taken : Marks)
            (head : HeadValue) (payload : List ℕ)
            → Waits size fed journal given taken head payload self.old lives.old
            → Hears fed [] (passed Side.Received head payload ∷ journal) self.new }
        ensures passes { (size : ℕ) (fed : List ℕ) (journal : List Item) (given taken : Marks)
            (head : HeadValue) (payload : List ℕ)
            → Waits size fed journal given taken head payload self.old lives.old
            → Passes size journal (passed Side.Received head payload ∷ journal) given taken
            lives.new }
        ensures others { KeepsOthers 0 lives.old lives.new }
    {
        let frame = self.decoder.frame();
        let head = frame.head;
        hear_frame(lives, &head, frame.payload);
        drop_untaken(lives);
        self.text.clear();
        self.heard = true;
        self.under = None;
        self.waits = None;
    }

    /// The message of channel zero that waits is a reply without the form that its request asks
    /// for. Its last frame passes as in `pass_zero`, and its last octet has broken ZeroReply.
    pub fn refuse_zero(&mut self, lives: &mut Lives) -> (Rule, u64)
        requires waits { IsWaiting self.old lives.old }
        ensures rule { result.0 ≡ RuleValue.ZeroReply }
        ensures place { (size : ℕ) (fed : List ℕ) (journal : List Item) (given taken : Marks)
            (head : HeadValue) (payload : List ℕ)
            → Waits size fed journal given taken head payload self.old lives.old
            → result.1 ≡ modulo_2_64 (length fed - 1) }
        ensures stopped { self.new.broken
            ≡ Some (record { rule = result.0; place = result.1; left = 0 }) }

        ensures passes { (size : ℕ) (fed : List ℕ) (journal : List Item) (given taken : Marks)
            (head : HeadValue) (payload : List ℕ)
            → Waits size fed journal given taken head payload self.old lives.old
            → Passes size journal (passed Side.Received head payload ∷ journal) given taken
            lives.new }
        ensures others { KeepsOthers 0 lives.old lives.new }
    {
        self.pass_zero(lives);
        let place = self.used.wrapping_sub(1);
        self.broken = Some(Stopped {
            rule: Rule::ZeroReply,
            place,
            left: 0,
        });
        (Rule::ZeroReply, place)
    }

    // ---- one step

    /// A rule was broken at this place; so many octets were used since the last whole frame.
    fn stop(&mut self, rule: Rule, place: u64, left: u64) -> Heard
        ensures value { result ≡ HeardValue.Broken rule place }
        ensures stopped { self.new ≡ stopped_at self.old rule place left }
    {
        self.broken = Some(Stopped { rule, place, left });
        Heard::Broken(rule, place)
    }

    /// A header has ended.
    fn begin(&mut self, lives: &mut Lives, head: &Head, left: u64) -> Heard
        requires whole { has_begun (live_at head.now.channel lives.old) ≡ false }
        ensures value { (size : ℕ) (journal : List Item) (given taken : Marks)
            → AreLiveBy size journal given taken lives.old
            → self.old.heard ≡ is_some (previous Side.Received journal)
            → head.now.size ≤ MAX_PAYLOAD
            → result ≡ heard_by (broken_head none_tunes Side.Received journal head.now)
            (last_place self.old.used) }
        ensures more { result ≡ HeardValue.More → (size : ℕ) (journal : List Item)
            (given taken : Marks) → AreLiveBy size journal given taken lives.old
            → under_way Side.Received journal ≡ None
            → AreLiveBy size (began Side.Received head.now ∷ journal) given taken lives.new }
        ensures begun { result ≡ HeardValue.More
            → self.new ≡ record self.old { under = Some head.now } }
        ensures stopped { (rule : RuleValue) (place : ℕ) → result ≡ HeardValue.Broken rule place
            → (self.new ≡ stopped_at self.old rule place left) × (lives.new ≡ lives.old) }
        ensures room { KeepsZeroRoom lives.old lives.new }
    {
        match hear_head(lives, self.heard, head) {
            Some(rule) => self.stop(rule, self.used.wrapping_sub(1), left),
            None => {
                self.under = Some(*head);
                Heard::More
            }
        }
    }

    /// A SEQ has ended.
    fn tell(&mut self, lives: &mut Lives, seq: &Seq, left: u64) -> Heard
        ensures value { (size : ℕ) (journal : List Item) (given taken : Marks)
            → AreLiveBy size journal given taken lives.old
            → result ≡ heard_by (broken_seq Side.Received journal seq.now)
            (last_place self.old.used) }
        ensures more { result ≡ HeardValue.More → (size : ℕ) (journal : List Item)
            (given taken : Marks) → AreLiveBy size journal given taken lives.old
            → AreLiveBy size (told Side.Received seq.now ∷ journal) given taken lives.new }
        ensures same { result ≡ HeardValue.More → self.new ≡ self.old }
        ensures stopped { (rule : RuleValue) (place : ℕ) → result ≡ HeardValue.Broken rule place
            → (self.new ≡ stopped_at self.old rule place left) × (lives.new ≡ lives.old) }
        ensures room { KeepsZeroRoom lives.old lives.new }
    {
        match hear_seq(lives, seq) {
            Some(rule) => self.stop(rule, self.used.wrapping_sub(1), left),
            None => Heard::More,
        }
    }

    /// A frame has ended.
    fn pass(&mut self, lives: &mut Lives) -> Heard
        requires may { ∥ MayPass self.old lives.old ∥₁ }
        ensures above { (head : HeadValue) (payload : List ℕ) → IsWhole head payload self.old
            → (head.channel == 0) ≡ false
            → (result ≡ HeardValue.Arrived head.channel)
            × (self.new ≡ record self.old { under = None; heard = true })
            × ((size : ℕ) (journal : List Item) (given taken : Marks)
            → AreLiveBy size journal given taken lives.old
            → under_way Side.Received journal ≡ Some head
            → AreLiveBy size (passed Side.Received head payload ∷ journal) given taken lives.new) }
        ensures part { (head : HeadValue) (payload : List ℕ) → IsWhole head payload self.old
            → (head.channel == 0) ≡ true → head.more ≡ true
            → (result ≡ HeardValue.More)
            × (self.new ≡ record self.old { under = None; heard = true; text = self.new.text })
            × Gathers self.old.text self.new.text payload
            × ((size : ℕ) (journal : List Item) (given taken : Marks)
            → AreLiveBy size journal given taken lives.old
            → under_way Side.Received journal ≡ Some head
            → PassesBy size (passed Side.Received head payload ∷ journal) given taken
            lives.new) }
        ensures last { (head : HeadValue) (payload : List ℕ) → IsWhole head payload self.old
            → (head.channel == 0) ≡ true → head.more ≡ false
            → (result ≡ HeardValue.Zero head)
            × (self.new ≡ record self.old { waits = Some head; text = self.new.text })
            × Gathers self.old.text self.new.text payload × (lives.new ≡ lives.old) }
        ensures room { KeepsZeroRoom lives.old lives.new }
    {
        let frame = self.decoder.frame();
        let head = frame.head;
        if head.channel != 0 {
            hear_frame(lives, &head, frame.payload);
            self.under = None;
            self.heard = true;
            return Heard::Arrived(head.channel);
        }
        self.text.gather(frame.payload);
        if !head.more {
            self.waits = Some(head);
            return Heard::Zero(head);
        }
        hear_frame(lives, &head, frame.payload);
        drop_untaken(lives);
        self.under = None;
        self.heard = true;
        Heard::More
    }

    /// The frame under way passes, where it is above channel zero and the octets hold its payload
    /// and its trailer. The decoder doesn't keep the payload.
    fn pass_whole(&mut self, lives: &mut Lives, bytes: &[u8]) -> Option<(usize, Heard)>
        requires held { IsHeld self.old lives.old }
        requires room { IfUnder self.old lives.old }
        ensures within { IfSome result (λ it. it.0 ≤ length bytes.now) }
        ensures progress { IfSome result (λ it. 0 < it.0) }
        ensures answers { IfSome result (λ it. (size : ℕ) (fed rest : List ℕ)
            (journal : List Item) (given taken : Marks)
            → IsEar size fed rest journal given taken self.old lives.old
            → Answers it.1 size (take it.0 bytes.now) fed journal given taken
            self.new lives.new) }
        ensures none { result ≡ None → (self.new ≡ self.old) × (lives.new ≡ lives.old) }
        ensures room { KeepsZeroRoom lives.old lives.new }
    {
        let Some(head) = &self.under else {
            return None;
        };
        let channel = head.channel;
        if channel == 0 {
            return None;
        }
        let (count, payload) = self.decoder.take_whole(bytes)?;
        self.used = self.used.wrapping_add(count as u64);
        hear_frame(lives, head, payload);
        self.under = None;
        self.heard = true;
        Some((count, Heard::Arrived(channel)))
    }

    /// Takes octets up to the decoder's next step, and answers how many, and what came of it.
    fn follow(&mut self, lives: &mut Lives, bytes: &[u8]) -> (usize, Heard)
        requires held { IsHeld self.old lives.old }
        requires room { IfUnder self.old lives.old }
        requires some { 0 < length bytes.now }
        ensures within { result.0 ≤ length bytes.now }
        ensures progress { is_going result.1 ≡ true → 0 < result.0 }
        ensures answers { (size : ℕ) (fed rest : List ℕ) (journal : List Item)
            (given taken : Marks)
            → IsEar size fed rest journal given taken self.old lives.old
            → Answers result.1 size (take result.0 bytes.now) fed journal given taken
            self.new lives.new }
        ensures room { KeepsZeroRoom lives.old lives.new }
    {
        let left = self.decoder.left();
        let (count, step) = self.decoder.feed(bytes);
        self.used = self.used.wrapping_add(count as u64);
        let left = left.wrapping_add(count as u64);
        match step {
            Step::More => (count, Heard::More),
            Step::Head(head) => (count, self.begin(lives, &head, left)),
            Step::Frame => (count, self.pass(lives)),
            Step::Seq(seq) => (count, self.tell(lives, &seq, left)),
            Step::Broken(rule, place) => (count, self.stop(rule, place, left)),
        }
    }

    /// The same, but a frame that stands whole passes at once.
    fn hear(&mut self, lives: &mut Lives, bytes: &[u8]) -> (usize, Heard)
        requires held { IsHeld self.old lives.old }
        requires room { IfUnder self.old lives.old }
        requires some { 0 < length bytes.now }
        ensures within { result.0 ≤ length bytes.now }
        ensures progress { is_going result.1 ≡ true → 0 < result.0 }
        ensures answers { (size : ℕ) (fed rest : List ℕ) (journal : List Item)
            (given taken : Marks)
            → IsEar size fed rest journal given taken self.old lives.old
            → Answers result.1 size (take result.0 bytes.now) fed journal given taken
            self.new lives.new }
        ensures room { KeepsZeroRoom lives.old lives.new }
    {
        if let Some(passed) = self.pass_whole(lives, bytes) {
            return passed;
        }
        self.follow(lives, bytes)
    }

    // ---- feeds

    /// The answer of each feed after a broken rule, or while a message of channel zero waits.
    fn over(&self) -> Option<Heard>
        ensures none { result ≡ None → (self.now.broken ≡ None) × (self.now.waits ≡ None) }
        ensures going { self.now.broken ≡ None → self.now.waits ≡ None → result ≡ None }
        ensures broken { (stopped : StoppedValue) → self.now.broken ≡ Some stopped
            → result ≡ Some (HeardValue.Broken stopped.rule stopped.place) }
        ensures waiting { (head : HeadValue) → self.now.broken ≡ None
            → self.now.waits ≡ Some head → result ≡ Some (HeardValue.Zero head) }
    {
        match self.broken {
            Some(stopped) => Some(Heard::Broken(stopped.rule, stopped.place)),
            None => match self.waits {
                Some(head) => Some(Heard::Zero(head)),
                None => None,
            },
        }
    }

    /// Makes room for what the frame under way adds to its channel.
    fn make_room(&self, lives: &mut Lives) -> Result<(), NoMemory>
        ensures ok { OnOk result (IfUnder self.now lives.new) }
        ensures kept { (size : ℕ) (journal : List Item) (given taken : Marks)
            → AreLiveBy size journal given taken lives.old
            → AreLiveBy size journal given taken lives.new }
        ensures room { KeepsZeroRoom lives.old lives.new }
    {
        match self.under {
            Some(head) => lives.make_room(head.channel),
            None => Ok(()),
        }
    }

    /// Takes octets up to the next event, and answers how many were used. It takes memory only for
    /// places of untaken runs, before the octets that need them are used.
    pub fn feed(&mut self, lives: &mut Lives, bytes: &[u8]) -> (usize, Heard)
        requires reached { IsReached self.old lives.old }
        ensures within { result.0 ≤ length bytes.now }
        ensures answers { (size : ℕ) (fed rest : List ℕ) (journal : List Item)
            (given taken : Marks)
            → IsEar size fed rest journal given taken self.old lives.old
            → Answers result.1 size (take result.0 bytes.now) fed journal given taken
            self.new lives.new }
        ensures all { result.1 ≡ HeardValue.More → result.0 ≡ length bytes.now }
        ensures progress { self.old.broken ≡ None → self.old.waits ≡ None
            → 0 < length bytes.now → is_going result.1 ≡ true → 0 < result.0 }
        ensures reached { IsReached self.new lives.new }
        ensures waits { (head : HeadValue) → self.old.waits ≡ None
            → result.1 ≡ HeardValue.Zero head → IsWaiting self.new lives.new }
        ensures waiting { (head : HeadValue) → self.old.broken ≡ None
            → self.old.waits ≡ Some head → (result.0 ≡ 0) × (result.1 ≡ HeardValue.Zero head)
            × (self.new ≡ self.old) × (lives.new ≡ lives.old) }
        ensures broken { (stopped : StoppedValue) → self.old.broken ≡ Some stopped
            → (result.0 ≡ 0) × (result.1 ≡ HeardValue.Broken stopped.rule stopped.place)
            × (self.new ≡ self.old) × (lives.new ≡ lives.old) }
        ensures room { KeepsZeroRoom lives.old lives.new }
    {
        if let Some(answer) = self.over() {
            return (0, answer);
        }
        let mut at = 0;
        while at < bytes.len() {
            match self.make_room(lives) {
                Ok(()) => {}
                Err(_) => return (at, Heard::NoMemory),
            }
            let (count, heard) = self.hear(lives, &bytes[at..]);
            at += count;
            if !heard.is_more() {
                return (at, heard);
            }
        }
        (at, Heard::More)
    }
}
