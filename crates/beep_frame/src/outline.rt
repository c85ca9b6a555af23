//! The plain reading of a short list of octets (RFC 3080, section 2.2.1; RFC 3081, section 3.1):
//! all of its frames, what is left, and where it dies. Its contract is the definition of a stream.
ghost use Rattle.std.specs.Prelude.{◌≡◌, ◌+◌, ◌≤◌, length, take, drop, IfOk, OnOk};

use crate::head::{Head, MAX_NUMBER};
use crate::rule::Rule;
use crate::seq::Seq;
use crate::step::Step;
use crate::tracker::Tracker;
use beep_octets::{NoMemory, Octets};
use std::alloc::Global;

/// A frame with all of its octets.
#[derive(Debug, Drop)]
pub enum PlainFrame {
    /// A data frame: its header and its payload.
    Data(Head, Octets),
    /// A SEQ, which is one line and has no payload.
    Seq(Seq),
}

/// What a list of octets is.
#[derive(Debug, Drop)]
pub struct Outline {
    /// The whole frames, in order.
    pub frames: Vec<PlainFrame>,
    /// The octets after the last whole frame, up to the end or to the dead octet.
    pub rest: u64,
    /// The rule that the stream breaks, and the number of the octet at which it is dead, from 0.
    pub dead: Option<(Rule, u64)>,
}

/// A header that was answered.
#[derive(Clone, Copy, Debug)]
struct Begun {
    head: Head,
    /// The octets in front of its payload.
    body: usize,
}

/// A reading that is under way.
#[derive(Drop)]
struct Reading {
    tracker: Tracker,
    frames: Vec<PlainFrame>,
    begun: Option<Begun>,
}

impl Outline {
    ghost use Rattle.beep_frame.specs.Outline.{Outlines};

    /// Reads octets as a stream whose payloads have any size. It takes memory for each frame.
    pub fn of(alloc: Global, octets: &[u8]) -> Result<Outline, NoMemory>
        ensures { IfOk result (λ outline. Outlines outline octets.now) }
    {
        let mut reading = Reading::new(alloc);
        let mut at = 0;
        while at < octets.len() {
            let (count, step) = reading.tracker.feed(&octets[at..]);
            if let Step::Broken(rule, place) = step {
                return Ok(Outline {
                    rest: reading.tracker.left() - 1,
                    frames: reading.frames,
                    dead: Some((rule, place)),
                });
            }
            at += count;
            reading.follow(alloc, step, &octets[..at])?;
        }
        Ok(Outline {
            rest: reading.tracker.left(),
            frames: reading.frames,
            dead: None,
        })
    }
}

impl Reading {
    ghost use Rattle.std.specs.Prelude.{[]};
    ghost use Rattle.beep_frame.specs.Outlining.{Holds, Follows, HasRoom, Adds, Ends};

    fn new(alloc: Global) -> Reading
        ensures { Holds result [] }
    {
        Reading {
            tracker: Tracker::new(MAX_NUMBER),
            frames: Vec::new(alloc),
            begun: None,
        }
    }

    /// Keeps what the last of these octets completes.
    fn follow(&mut self, alloc: Global, step: Step, read: &[u8]) -> Result<(), NoMemory>
        requires { HasRoom step self.old.begun (length read.now) }
        ensures { OnOk result (Follows step self.old self.new read.now) }
    {
        match step {
            Step::More | Step::Broken(_, _) => Ok(()),
            Step::Head(head) => {
                let body = read.len();
                self.begun = Some(Begun { head, body });
                Ok(())
            }
            Step::Frame => self.end_frame(alloc, read),
            Step::Seq(seq) => self.add(PlainFrame::Seq(seq)),
        }
    }

    fn end_frame(&mut self, alloc: Global, read: &[u8]) -> Result<(), NoMemory>
        requires { HasRoom Step.Frame self.old.begun (length read.now) }
        ensures { OnOk result (Ends self.old.begun self.old self.new read.now) }
    {
        let Some(Begun { head, body }) = self.begun else {
            return Ok(());
        };
        let mut payload = Octets::new(alloc);
        payload.extend(&read[body..body + head.size as usize])?;
        self.add(PlainFrame::Data(head, payload))
    }

    fn add(&mut self, frame: PlainFrame) -> Result<(), NoMemory>
        ensures { OnOk result (Adds frame self.old self.new) }
    {
        self.frames.reserve(1)?;
        self.frames.push_reserved(frame);
        self.begun = None;
        Ok(())
    }
}
