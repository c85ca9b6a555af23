//! The three standard streams, without which a program may be started.

use libc::net::{POLLNVAL, poll};
use libc::types::pollfd;
use std::fs::{File, Files, OpenOptions};
use std::io;
use std::os::fd::IntoRawFd;

/// Which of the standard streams were open when the program began.
#[derive(Clone, Copy, Debug, PartialEq, Eq)]
pub struct Streams {
    pub input: bool,
    pub output: bool,
    pub error: bool,
}

/// Opens the null device on each of the descriptors 0, 1 and 2 that isn't open, so that no link and
/// no file gets one of them. A read of such a 0 fails, and so does a write on such a 1; what is
/// written on such a 2 is lost. To be called before anything is opened.
pub fn hold_streams<R: Files<File = File>>(files: &R) -> io::Result<Streams> {
    let streams = Streams {
        input: is_open(0),
        output: is_open(1),
        error: is_open(2),
    };
    // Each takes the lowest descriptor that is free.
    if !streams.input {
        hold(files, false)?;
    }
    if !streams.output {
        hold(files, true)?;
    }
    if !streams.error {
        hold(files, false)?;
    }
    Ok(streams)
}

/// Whether a descriptor is open, by the one call that says so and changes nothing.
fn is_open(fd: i32) -> bool {
    let mut asked = [pollfd {
        fd,
        events: 0,
        revents: 0,
    }];
    poll(&mut asked, 0) <= 0 || asked[0].revents & POLLNVAL == 0
}

/// Opens the null device to read or to write alone, until the program ends.
fn hold<R: Files<File = File>>(files: &R, reads: bool) -> io::Result<()> {
    let mut options = OpenOptions::new();
    options.read(reads);
    options.write(!reads);
    let file = options.open(files, "/dev/null")?;
    let _ = file.into_raw_fd();
    Ok(())
}
