//! What an end keeps of channel zero beside the channel itself.
ghost use Rattle.std.specs.Prelude.{◌≡◌, ◌∷◌, ◌++◌, ◌+◌, ◌<◌, ◌≤◌, ◌||◌, [], length, min, true, None, Some, IfOk, IfSome, IfNone, OnOk, OnErr, if◌then◌else◌};
ghost use Rattle.std.specs.Option.{option_copied, option_map, option_map_or, option_to_list};
ghost use Rattle.beep_asked.specs.beep_octets.specs.Numbers.{numbers_32, numbers_64};
ghost use Rattle.beep_asked.specs.beep_frame.specs.declared.kind.Kind.{Kind as KindValue};
ghost use Rattle.beep_asked.specs.Kept.{implied_request, oldest, after_grant};
ghost use Rattle.beep_asked.specs.Request.{kept_of};
ghost use Rattle.beep_management.specs.declared.wait.Wait.{Wait as WaitValue};
ghost use Rattle.beep_management.specs.Managed.{number_started, numbers_of, has_number, lowest, first_of, octets_prepared};
ghost use Rattle.beep_management.specs.Values.{prepared_of};
ghost use Rattle.beep_management.specs.Moved.{is_live_in};
ghost use Rattle.beep_management.specs.Steps.{answers_after, answers_if, if_granted, KeepsQueue, Becomes, TakesMine, TakesTheirs, PassesAct};

use crate::answers::{Answer, Answers};
use crate::naming::names_live;
use crate::starting::Starting;
use crate::wait::Wait;
use beep_asked::beep_channel::Channel;
use beep_asked::beep_frame::Kind;
use beep_asked::beep_lives::Lives;
use beep_asked::beep_mgmt::Mgmt;
use beep_asked::beep_octets::{NoMemory, Octets};
use beep_asked::{Request, Waiting};
use std::alloc::Global;
use std::marker::Model;

/// The requests of channel zero that wait, the own ones that aren't sent, the answers that aren't
/// given, and the channels of starts.
#[derive(Drop)]
pub struct Management {
    mine: Waiting,
    acts: Waiting,
    theirs: Waiting,
    answers: Answers,
    starting: Starting,
    granted: Starting,
}

/// A request that was answered, and the channel that was made for it.
#[derive(Drop)]
pub struct Answered {
    pub request: Request,
    pub channel: Option<Channel>,
}

impl Model for Management {
    ghost use Rattle.beep_management.specs.Managed.{Managed};

    ghost Value = { Managed };

    ghost view = { λ m. record {
      mine = m.mine;
      acts = m.acts;
      theirs = m.theirs;
      answers = m.answers.list;
      starting = m.starting.list;
      granted = m.granted.list;
    } };
}

impl Management {
    /// What a new session keeps: the implied requests wait, and the greeting is prepared (RFC 3080,
    /// section 2.3.1.1).
    pub fn new(alloc: Global, greeting: Octets) -> Result<Management, NoMemory>
        ensures mine { IfOk result (λ m. m.mine.requests ≡ implied_request ∷ []) }
        ensures acts { IfOk result (λ m. m.acts.requests ≡ []) }
        ensures theirs { IfOk result (λ m. m.theirs.requests ≡ implied_request ∷ []) }
        ensures answers { IfOk result (λ m. m.answers ≡ record {
          kind = KindValue.Rpy;
          octets = greeting.octets;
          waits = WaitValue.Nothing;
        } ∷ []) }
        ensures starting { IfOk result (λ m. (m.starting ≡ []) × (m.granted ≡ [])) }
    {
        let mine = Waiting::new(alloc)?;
        let theirs = Waiting::new(alloc)?;
        let mut answers = Answers::new(alloc);
        answers.reserve()?;
        answers.push(Answer {
            kind: Kind::Rpy,
            octets: greeting,
            waits: Wait::Nothing,
        });
        Ok(Management {
            mine,
            acts: Waiting::empty(alloc),
            theirs,
            answers,
            starting: Starting::new(alloc),
            granted: Starting::new(alloc),
        })
    }

    // ---- looks

    /// The own requests that have passed and wait.
    pub fn mine(&self) -> &Waiting
        ensures { result.now ≡ self.now.mine }
    {
        &self.mine
    }

    /// The own requests that were given and have not wholly passed.
    pub fn acts(&self) -> &Waiting
        ensures { result.now ≡ self.now.acts }
    {
        &self.acts
    }

    /// The requests of the peer that wait.
    pub fn theirs(&self) -> &Waiting
        ensures { result.now ≡ self.now.theirs }
    {
        &self.theirs
    }

    /// The first answer that isn't given.
    pub fn first_answer(&self) -> Option<&Answer>
        ensures { option_map prepared_of (option_copied result) ≡ first_of self.now.answers }
    {
        self.answers.first()
    }

    /// How many answers aren't given.
    pub fn count_answers(&self) -> usize
        ensures { result ≡ length self.now.answers }
    {
        self.answers.len()
    }

    /// The octets of those answers together, where a usize counts so many.
    pub fn octets_of_answers(&self) -> Option<usize>
        ensures some { IfSome result (λ octets. octets ≡ octets_prepared self.now.answers) }
        ensures none { IfNone result (numbers_64 ≤ octets_prepared self.now.answers) }
    {
        self.answers.octets()
    }

    // ---- channels that are starting

    /// Whether a channel of this number is starting.
    pub fn is_starting(&self, number: u32) -> bool
        ensures { result
            ≡ (has_number number self.now.starting || has_number number self.now.granted) }
    {
        self.starting.has(number) || self.granted.has(number)
    }

    /// How many channels are starting.
    pub fn count_starting(&self) -> usize
        requires few { length self.now.starting + length self.now.granted < numbers_32 }
        ensures { result ≡ length self.now.starting + length self.now.granted }
    {
        self.starting.len() + self.granted.len()
    }

    /// The lowest number of a channel that is starting.
    pub fn lowest_starting(&self) -> Option<u32>
        ensures { result
            ≡ lowest (numbers_of self.now.starting ++ numbers_of self.now.granted) }
    {
        let mut lowest = lowest_of(&self.starting, None);
        lowest = lowest_of(&self.granted, lowest);
        lowest
    }

    /// Puts the numbers of the channels that are starting after those in the list.
    pub fn list_starting(&self, numbers: &mut Vec<u32>) -> Result<(), NoMemory>
        ensures { OnOk result (numbers.new.items ≡ numbers.old.items
            ++ (numbers_of self.now.starting ++ numbers_of self.now.granted)) }
    {
        list_numbers(&self.starting, numbers)?;
        list_numbers(&self.granted, numbers)
    }

    // ---- what comes and is given

    /// A request of the peer came: its answer is prepared, and the channel that is to be granted
    /// kept. After `NoMemory` nothing came.
    pub fn came(
        &mut self,
        request: Request,
        answer: Answer,
        channel: Option<Channel>,
    ) -> Result<(), NoMemory>
        ensures ok { OnOk result (self.new ≡ record self.old {
          theirs = self.new.theirs;
          answers = self.old.answers ++ prepared_of answer ∷ [];
          granted = self.old.granted ++ option_to_list channel;
        }) }
        ensures theirs { OnOk result
            (self.new.theirs.requests ≡ kept_of request ∷ self.old.theirs.requests) }
        ensures err { OnErr result ((self.new ≡ record self.old { theirs = self.new.theirs })
            × KeepsQueue self.old.theirs self.new.theirs) }
    {
        self.theirs.reserve(1)?;
        self.answers.reserve()?;
        self.granted.reserve()?;
        self.theirs.push(request);
        self.answers.push(answer);
        self.granted.push(channel);
        Ok(())
    }

    /// An own request is given, with its channel where it is a start. After `NoMemory` none is.
    pub fn act(&mut self, request: Request, channel: Option<Channel>) -> Result<(), NoMemory>
        ensures ok { OnOk result (self.new ≡ record self.old {
          mine = self.new.mine;
          acts = self.new.acts;
          starting = self.old.starting ++ option_to_list channel;
        }) }
        ensures acts { OnOk result
            (self.new.acts.requests ≡ kept_of request ∷ self.old.acts.requests) }
        ensures mine { KeepsQueue self.old.mine self.new.mine }
        ensures room { OnOk result (length self.new.acts.requests ≤ self.new.mine.room) }
        ensures err { OnErr result (self.new ≡ record self.old {
          mine = self.new.mine;
          acts = self.new.acts;
        }) }
        ensures kept { OnErr result (KeepsQueue self.old.acts self.new.acts) }
    {
        let Some(more) = self.acts.len().checked_add(1) else {
            return Err(NoMemory);
        };
        self.mine.reserve(more)?;
        self.acts.reserve(1)?;
        self.starting.reserve()?;
        self.acts.push(request);
        self.starting.push(channel);
        Ok(())
    }

    /// Takes the first answer that isn't given, as it is given.
    pub fn take_answer(&mut self) -> Option<Answer>
        ensures split { self.old.answers
            ≡ option_to_list (option_map prepared_of result) ++ self.new.answers }
        ensures same { self.new ≡ record self.old { answers = self.new.answers } }
        ensures none { result ≡ None → self.old.answers ≡ [] }
    {
        self.answers.pop()
    }

    // ---- what passes

    /// The oldest act has wholly passed, and waits.
    pub fn pass_act(&mut self, lives: &Lives)
        requires some { 0 < length self.old.acts.requests }
        requires room { length self.old.acts.requests ≤ self.old.mine.room }
        ensures { PassesAct (is_live_in lives.now) self.old self.new }
    {
        let Some(mut request) = self.acts.pop() else {
            unreachable!()
        };
        request.names = names_live(&request, lives);
        request.implied = false;
        self.mine.push(request);
    }

    /// The oldest own request was answered; a grant ends the life that a close names.
    pub fn take_mine(&mut self, grants: bool) -> Answered
        requires some { 0 < length self.old.mine.requests }
        requires channel { IfSome (oldest self.old.mine.requests)
            (λ one. length (number_started one.said) ≤ length self.old.starting) }
        ensures { TakesMine grants (kept_of result.request) result.channel self.old self.new }
    {
        let Some(request) = self.mine.pop() else {
            unreachable!()
        };
        let channel = take_channel(&mut self.starting, &request, true);
        self.clear_if(grants, &request);
        Answered { request, channel }
    }

    /// The oldest request of the peer was answered; a grant ends the life that a close names.
    pub fn take_theirs(&mut self, grants: bool) -> Answered
        requires some { 0 < length self.old.theirs.requests }
        requires channel { grants ≡ true → IfSome (oldest self.old.theirs.requests)
            (λ one. length (number_started one.said) ≤ length self.old.granted) }
        ensures { TakesTheirs grants (kept_of result.request) result.channel self.old self.new }
    {
        let Some(request) = self.theirs.pop() else {
            unreachable!()
        };
        let channel = take_channel(&mut self.granted, &request, grants);
        self.clear_if(grants, &request);
        Answered { request, channel }
    }

    /// The same, where the request was granted.
    fn clear_if(&mut self, grants: bool, request: &Request)
        ensures mine { Becomes (if_granted grants (kept_of request.now) self.old.mine.requests)
            self.old.mine self.new.mine }
        ensures acts { Becomes (if_granted grants (kept_of request.now) self.old.acts.requests)
            self.old.acts self.new.acts }
        ensures theirs { Becomes
            (if_granted grants (kept_of request.now) self.old.theirs.requests)
            self.old.theirs self.new.theirs }
        ensures answers { self.new.answers
            ≡ answers_if grants (kept_of request.now) self.old.answers }
        ensures starting { (self.new.starting ≡ self.old.starting)
            × (self.new.granted ≡ self.old.granted) }
    {
        if grants {
            self.clear_by(request);
        }
    }

    /// This request was granted: where it is a close that names a live life, nothing names that
    /// life any more, and nothing waits for its end.
    fn clear_by(&mut self, granted: &Request)
        ensures mine { Becomes (after_grant (kept_of granted.now) self.old.mine.requests)
            self.old.mine self.new.mine }
        ensures acts { Becomes (after_grant (kept_of granted.now) self.old.acts.requests)
            self.old.acts self.new.acts }
        ensures theirs { Becomes (after_grant (kept_of granted.now) self.old.theirs.requests)
            self.old.theirs self.new.theirs }
        ensures answers { self.new.answers
            ≡ answers_after (kept_of granted.now) self.old.answers }
        ensures starting { (self.new.starting ≡ self.old.starting)
            × (self.new.granted ≡ self.old.granted) }
    {
        self.mine.clear_by(granted);
        self.acts.clear_by(granted);
        self.theirs.clear_by(granted);
        match &granted.said {
            Some(Mgmt::Close { number, .. }) => if granted.names {
                self.answers.clear(*number);
            },
            Some(
                Mgmt::Greeting { .. }
                | Mgmt::Start { .. }
                | Mgmt::Chosen { .. }
                | Mgmt::Okay
                | Mgmt::Fault { .. },
            )
            | None => {}
        }
    }
}

/// Takes the first channel, where this request is a start that takes one.
fn take_channel(channels: &mut Starting, request: &Request, takes: bool) -> Option<Channel>
    requires some { takes ≡ true
        → length (number_started (kept_of request.now).said) ≤ length channels.old.list }
    ensures split { channels.old.list ≡ option_to_list result ++ channels.new.list }
    ensures sized { length (option_to_list result)
        ≡ (if takes then length (number_started (kept_of request.now).said) else 0) }
{
    if !takes {
        return None;
    }
    match &request.said {
        Some(Mgmt::Start { .. }) => channels.pop(),
        Some(
            Mgmt::Greeting { .. }
            | Mgmt::Chosen { .. }
            | Mgmt::Close { .. }
            | Mgmt::Okay
            | Mgmt::Fault { .. },
        )
        | None => None,
    }
}

/// The lowest number of channels, or this one where it is lower.
fn lowest_of(channels: &Starting, known: Option<u32>) -> Option<u32>
    ensures { result ≡ lowest (option_to_list known ++ numbers_of channels.now.list) }
{
    let mut lowest = known;
    for i in 0..channels.len() {
        lowest = Some(lower_of(lowest, channels.number(i)));
    }
    lowest
}

/// The lower of two numbers, where there are two.
fn lower_of(known: Option<u32>, number: u32) -> u32
    ensures { result ≡ option_map_or (λ other. min other number) known number }
{
    match known {
        Some(other) => other.min(number),
        None => number,
    }
}

/// Puts the numbers of channels after those in the list.
fn list_numbers(channels: &Starting, numbers: &mut Vec<u32>) -> Result<(), NoMemory>
    ensures { OnOk result
        (numbers.new.items ≡ numbers.old.items ++ numbers_of channels.now.list) }
{
    for i in 0..channels.len() {
        let Ok(()) = numbers.push(channels.number(i)) else {
            return Err(NoMemory);
        };
    }
    Ok(())
}
