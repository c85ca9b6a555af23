//! The tests of beep_record that no command reaches, in a crate of their own, so that they are
//! proved by the contracts of that library and its own functions are proved once.
#![tactic(auto)]

#[cfg(test)]
mod played;
#[cfg(test)]
mod read;
