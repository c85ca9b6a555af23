//! Tests of beep_two_sessions over its public calls, in a crate of their own, so that they are
//! proved by the contracts of that library, whose functions are proved once.
#![tactic(auto)]

#[cfg(test)]
mod world;
