//! A sender whose input goes on: what it stands for with the lines that came so far it stands for
//! with more lines too, while the end of its lines isn't given (RFC 3080, section 2.1.1; RFC 3195,
//! section 3.1).
//!
//! Definitions and laws alone: nothing here runs.
#![tactic(auto)]

pub mod laws;
