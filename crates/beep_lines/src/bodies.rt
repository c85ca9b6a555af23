//! The bodies of answers that have come in part. Answers of one reply may be interleaved (RFC 3080,
//! section 2.6.1), so that several are unfinished at once.
ghost use Rattle.std.specs.Prelude.{◌≡◌, ◌<◌, ◌++◌, ◌∷◌, [], ℕ, length, true, false, None, Some, IfSome, IfOk, OnOk, slice_get};
ghost use Rattle.std.specs.List.{list_any, position};
ghost use Rattle.beep_lines.specs.declared.bodies.Body.{Body as BodyValue};
ghost use Rattle.beep_lines.specs.Bodies.{body_of, is_free, is_of, HasEnded, HasMore, IsFree, IsOver};

use beep_octets::{NoMemory, Octets};
use std::alloc::Global;
use std::marker::Model;

/// The octets of an answer so far, and where it belongs. One that is over is kept for its room.
#[derive(Drop)]
pub struct Body {
    channel: u32,
    ansno: u32,
    is_begun: bool,
    octets: Octets,
}

/// The answers that have come in part.
#[derive(Drop)]
pub struct Bodies {
    alloc: Global,
    list: Vec<Body>,
}

impl Model for Bodies {
    ghost use Rattle.std.specs.Prelude.{List};
    ghost use Rattle.beep_lines.specs.declared.bodies.Body.{Body};

    ghost Value = { List Body };

    ghost view = { λ bodies. bodies.list.items };
}

impl Bodies {
    /// None. It takes no memory.
    pub fn new(alloc: Global) -> Bodies
        ensures { result ≡ [] }
    {
        Bodies {
            alloc,
            list: Vec::new(alloc),
        }
    }

    /// How many places there are.
    pub fn len(&self) -> usize
        ensures { result ≡ length self.now }
    {
        self.list.len()
    }

    /// The channel of the unfinished answer at a place, where one is.
    pub fn channel(&self, i: usize) -> Option<u32>
        requires { i < length self.now }
        ensures none { (body : BodyValue) → slice_get self.now i ≡ Some body
            → body.is_begun ≡ false → result ≡ None }
        ensures some { (body : BodyValue) → slice_get self.now i ≡ Some body
            → body.is_begun ≡ true → result ≡ Some body.channel }
    {
        let body = &self.list[i];
        if body.is_begun {
            Some(body.channel)
        } else {
            None
        }
    }

    /// The place of the unfinished answer of this number, where one is.
    fn place(&self, channel: u32, ansno: u32) -> Option<usize>
        ensures { result ≡ position (is_of channel ansno) self.now }
    {
        self.list.iter().position(|body| {
            body.is_begun && body.channel == channel && body.ansno == ansno
        })
    }

    /// The octets so far of an answer: none of one that isn't under way.
    pub fn octets(&self, channel: u32, ansno: u32) -> &[u8]
        ensures { result.now ≡ body_of channel ansno self.now }
    {
        match self.place(channel, ansno) {
            Some(i) => self.list[i].octets.as_slice(),
            None => &[],
        }
    }

    /// The answer at a place is over.
    pub fn end_at(&mut self, i: usize)
        requires { i < length self.old }
        ensures { HasEnded i self.old self.new }
    {
        let body = &mut self.list[i];
        body.is_begun = false;
    }

    /// The answer of this number is over, where one is under way.
    pub fn end(&mut self, channel: u32, ansno: u32)
        ensures { IsOver channel ansno self.old self.new }
    {
        while let Some(i) = self.place(channel, ansno) {
            self.end_at(i);
        }
    }

    /// Appends octets to an answer, which begins where it isn't under way.
    pub fn extend(&mut self, channel: u32, ansno: u32, octets: &[u8]) -> Result<(), NoMemory>
        ensures { OnOk result (HasMore channel ansno octets.now self.old self.new) }
    {
        match self.place(channel, ansno) {
            Some(i) => {
                let body = &mut self.list[i];
                body.octets.extend(octets)
            }
            None => self.begin(channel, ansno, octets),
        }
    }

    /// Begins an answer with these octets.
    fn begin(&mut self, channel: u32, ansno: u32, octets: &[u8]) -> Result<(), NoMemory>
        requires none { list_any (is_of channel ansno) self.old ≡ false }
        ensures { OnOk result (HasMore channel ansno octets.now self.old self.new) }
    {
        let i = self.free()?;
        let body = &mut self.list[i];
        body.channel = channel;
        body.ansno = ansno;
        body.is_begun = true;
        body.octets.clear();
        body.octets.extend(octets)
    }

    /// A place where no answer is under way.
    fn free(&mut self) -> Result<usize, NoMemory>
        ensures { IfOk result (λ i. IsFree i self.old self.new) }
    {
        if let Some(i) = self.free_place() {
            return Ok(i);
        }
        let at = self.list.len();
        self.list.reserve(1)?;
        self.list.push_reserved(Body {
            channel: 0,
            ansno: 0,
            is_begun: false,
            octets: Octets::new(self.alloc),
        });
        Ok(at)
    }

    /// The first place where no answer is under way, where one is.
    fn free_place(&self) -> Option<usize>
        ensures { result ≡ position is_free self.now }
    {
        self.list.iter().position(|body| !body.is_begun)
    }
}
