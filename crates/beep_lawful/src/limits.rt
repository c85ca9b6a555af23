//! The numbers of requests.

use beep_frame::MAX_NUMBER;

/// How many numbers a header has for requests: those from 0 to `MAX_NUMBER`.
pub const MESSAGE_NUMBERS: usize = MAX_NUMBER as usize + 1;
