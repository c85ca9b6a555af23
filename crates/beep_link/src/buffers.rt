//! The buffers of a link.
ghost use Rattle.std.specs.Prelude.{◌≡◌, ◌≤◌, ◌<◌, ◌↔◌, true, length, IfOk};
ghost use Rattle.beep_link.specs.Between.{IsBetween};
ghost use Rattle.beep_link.specs.declared.end.TheConstants.{FRAME_ROOM};

use crate::end::FRAME_ROOM;
use beep_octets::{NoMemory, Octets};
use std::alloc::Global;

/// How many octets the buffer of each direction has: as many as the greatest window.
pub const BUFFER: usize = 65536;

/// How full the buffer of what goes out is where an end stops gathering, and what it gathered is
/// written: a quarter, so that a peer hears the first frames while the next are spelled.
pub const PART: usize = BUFFER / 4;

/// Whether one more frame is gathered before what is gathered is written: less than a quarter of
/// the buffer is full, and the frame has room.
pub fn takes_more(out: &Octets) -> bool
    ensures { (result ≡ true)
        ↔ ((length out.now.octets < PART) × (FRAME_ROOM ≤ out.now.spare)) }
{
    out.len() < PART && FRAME_ROOM <= out.spare()
}

/// What a read gives, and what is gathered to be written. Between two turns nothing is gathered,
/// so that one pair serves all links of a loop.
#[derive(Drop)]
pub struct Buffers {
    pub(crate) coming: Vec<u8>,
    pub(crate) going: Octets,
}

impl Buffers {
    /// Both, with their room.
    pub fn new(alloc: Global) -> Result<Buffers, NoMemory>
        ensures between { IfOk result (λ b. IsBetween b) }
        ensures room { IfOk result (λ b. BUFFER ≤ b.going.spare) }
    {
        let mut coming = Vec::new(alloc);
        coming.resize(BUFFER, 0)?;
        let mut going = Octets::new(alloc);
        going.reserve(BUFFER)?;
        Ok(Buffers { coming, going })
    }
}
