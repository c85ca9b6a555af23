//! The tests of beep_script, in a crate of their own, so that they are proved by the contracts of
//! that library and its own functions are proved once.
#![tactic(auto)]

#[cfg(test)]
mod lines_heard;
#[cfg(test)]
mod refusals;
#[cfg(test)]
mod sample;
#[cfg(test)]
mod scripts;
#[cfg(test)]
mod settled;
#[cfg(test)]
mod story;
