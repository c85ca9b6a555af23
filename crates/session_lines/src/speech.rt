//! What the peer says, played by hand: frames, SEQs and loose octets.

use crate::answer::{number_in, push_number};
use crate::stop::Stop;
use beep_session::beep_octets::Octets;
use std::alloc::Global;

/// The profile that each end offers, and that both start.
pub const URI: &str = "http://beep.example/pair";

/// The MIME header of a message of channel zero, with the empty line after it.
const MIME: &str = "Content-Type: application/beep+xml\r\n\r\n";

/// How many octets such a message has beside its element: the header and the last CRLF.
const BESIDE: u32 = 40;

/// No element here has as many octets.
const LONGEST: usize = 65536;

/// What the peer says next, in one read.
#[derive(Drop)]
pub struct Speech {
    alloc: Global,
    read: Octets,
    /// How many octets there are up to the end of the last header or SEQ.
    header: usize,
    /// The octets and the requests that the peer sent on channel zero.
    zero: u32,
    asked: u32,
}

impl Speech {
    /// Of a peer that has said nothing yet.
    pub fn new(alloc: Global) -> Speech {
        Speech {
            alloc,
            read: Octets::new(alloc),
            header: 0,
            zero: 0,
            asked: 0,
        }
    }

    /// The octets of the next read.
    pub fn octets(&self) -> &[u8] {
        self.read.as_slice()
    }

    /// How many of these octets there are up to the end of the last header or SEQ.
    pub fn header(&self) -> usize {
        self.header
    }

    /// All was heard.
    pub fn clear(&mut self) {
        self.read.clear();
        self.header = 0;
    }

    /// Puts octets of any kind after what is said.
    pub fn put_octets(&mut self, octets: &[u8]) -> Result<(), Stop> {
        self.read.extend(octets)?;
        Ok(())
    }

    /// Puts what this line says after what is said, and answers whether it says anything: `starts
    /// NUMBER`, `closes NUMBER` and `asks ELEMENT` are the peer's requests on channel zero, `says
    /// KIND NUMBER ELEMENT` its replies there; or a frame or what one is made of.
    pub fn puts(&mut self, line: &str) -> Result<bool, Stop> {
        let Some((act, rest)) = line.split_once(' ') else {
            return Ok(false);
        };
        match act {
            "starts" => self.put_start(rest),
            "closes" => self.put_close(rest),
            "asks" => self.put_request(rest),
            "says" => self.put_reply(rest),
            _ => self.puts_frame(act, rest),
        }
    }

    /// The same of `frame HEADER PAYLOAD`, one frame, `hear HEADER ELEMENT`, one with a message of
    /// channel zero, `part KIND NUMBER MORE SIZE`, one of channel zero of so many octets of `x`,
    /// `head HEADER`, a header, `rest PAYLOAD`, what follows it, with the trailer, `seq SEQ`, a
    /// SEQ, and `octets TEXT`, that text.
    fn puts_frame(&mut self, act: &str, rest: &str) -> Result<bool, Stop> {
        match act {
            "frame" => self.put_frame(rest),
            "hear" => self.put_zero_frame(rest),
            "part" => self.put_part(rest),
            "head" | "seq" => self.put_head(rest),
            "rest" => self.put(&[rest, "END\r\n"]),
            "octets" => self.put(&[rest]),
            _ => Ok(false),
        }
    }

    fn put(&mut self, parts: &[&str]) -> Result<bool, Stop> {
        for part in parts {
            self.read.extend(part.as_bytes())?;
        }
        Ok(true)
    }

    /// A header or a SEQ.
    fn put_head(&mut self, header: &str) -> Result<bool, Stop> {
        self.put(&[header, "\r\n"])?;
        self.header = self.read.len();
        Ok(true)
    }

    /// A header and its payload, `-` where that has no octet, `{COUNT*TEXT}` for so many times that
    /// text.
    fn put_frame(&mut self, words: &str) -> Result<bool, Stop> {
        let Some((header, payload)) = words.rsplit_once(' ') else {
            return Ok(false);
        };
        self.put_head(header)?;
        if let Some((count, text)) = repeated(payload) {
            self.put_times(count, text)?;
        } else if payload != "-" {
            self.put(&[payload])?;
        }
        self.put(&["END\r\n"])
    }

    fn put_times(&mut self, count: u32, text: &str) -> Result<(), Stop> {
        for _ in 0..count {
            self.read.extend(text.as_bytes())?;
        }
        Ok(())
    }

    /// A header and a message of channel zero.
    fn put_zero_frame(&mut self, words: &str) -> Result<bool, Stop> {
        let Some((header, element)) = words.split_once(" <") else {
            return Ok(false);
        };
        self.put_head(header)?;
        self.put(&[MIME, "<", element, "\r\nEND\r\n"])
    }

    /// The header of a frame of channel zero, at the place where its octets come.
    fn put_zero(&mut self, kind: &str, number: &str, more: &str, size: u32) -> Result<(), Stop> {
        let mut header = String::new(self.alloc);
        for part in [kind, " 0 ", number, more] {
            header.push_str(part)?;
        }
        push_number(&mut header, u64::from(self.zero))?;
        header.push_str(" ")?;
        push_number(&mut header, u64::from(size))?;
        self.zero = self.zero.saturating_add(size);
        self.put_head(header.as_str())?;
        Ok(())
    }

    /// A message of channel zero, in one frame.
    fn put_message(&mut self, kind: &str, number: &str, element: &str) -> Result<bool, Stop> {
        let len = element.len().min(LONGEST) as u32;
        self.put_zero(kind, number, " . ", BESIDE.saturating_add(len))?;
        self.put(&[MIME, element, "\r\nEND\r\n"])
    }

    fn put_reply(&mut self, words: &str) -> Result<bool, Stop> {
        let Some((kind, rest)) = words.split_once(' ') else {
            return Ok(false);
        };
        let Some((number, element)) = rest.split_once(' ') else {
            return Ok(false);
        };
        self.put_message(kind, number, element)
    }

    /// The next request of the peer.
    fn put_request(&mut self, element: &str) -> Result<bool, Stop> {
        self.asked = self.asked.saturating_add(1);
        let mut number = String::new(self.alloc);
        push_number(&mut number, u64::from(self.asked))?;
        self.put_message("MSG", number.as_str(), element)
    }

    /// A request to start a channel of this number with the profile that is offered.
    fn put_start(&mut self, number: &str) -> Result<bool, Stop> {
        let mut element = String::new(self.alloc);
        for part in [
            "<start number='",
            number,
            "'><profile uri='",
            URI,
            "' /></start>",
        ] {
            element.push_str(part)?;
        }
        self.put_request(element.as_str())
    }

    /// A request to close a number.
    fn put_close(&mut self, number: &str) -> Result<bool, Stop> {
        let mut element = String::new(self.alloc);
        for part in ["<close number='", number, "' code='200' />"] {
            element.push_str(part)?;
        }
        self.put_request(element.as_str())
    }

    /// A frame of channel zero that goes on, or with `.` doesn't, of so many octets of `x`.
    fn put_part(&mut self, words: &str) -> Result<bool, Stop> {
        let mut words = words.split(' ');
        let kind = words.next().unwrap_or("");
        let number = words.next().unwrap_or("");
        let more = if words.next() == Some("*") {
            " * "
        } else {
            " . "
        };
        let size = number_in(words.next());
        self.put_zero(kind, number, more, size)?;
        self.put_times(size, "x")?;
        self.put(&["END\r\n"])
    }
}

/// The count and the text of `{COUNT*TEXT}`.
fn repeated(payload: &str) -> Option<(u32, &str)> {
    let inner = payload.strip_prefix("{")?.strip_suffix("}")?;
    let (count, text) = inner.split_once('*')?;
    Some((number_in(Some(count)), text))
}
