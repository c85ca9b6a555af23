use super::*;
use std::cell::Cell;
use std::net::Ipv4Addr;

/// Fails in so many accepts by this error of the system, and then gives a link.
#[derive(Drop)]
struct Refusing {
    code: i32,
    left: Cell<u32>,
}

impl OpenListener for Refusing {
    type Stream = u8;

    fn accept(&self) -> io::Result<(u8, SocketAddr)> {
        let left = self.left.get();
        if left == 0 {
            return Ok((7, SocketAddr::from((Ipv4Addr::LOCALHOST, 601))));
        }
        self.left.set(left - 1);
        Err(io::Error::from_raw_os_error(self.code))
    }
}

/// A clock that counts its sleeps.
#[derive(Drop)]
struct Counting {
    sleeps: Cell<u32>,
}

impl Clock for Counting {
    fn monotonic(&self) -> io::Result<Duration> {
        Err(io::Error::from(ErrorKind::Unsupported))
    }

    fn since_1970(&self) -> io::Result<Duration> {
        Err(io::Error::from(ErrorKind::Unsupported))
    }

    fn sleep(&self, _duration: Duration) {
        self.sleeps.set(self.sleeps.get().saturating_add(1));
    }
}

// An error of accept(2) by its number in Linux, how often it comes, whether a link is given after it,
// and how often is waited.
#[test]
fn an_accept_that_fails_for_one_peer_is_asked_again(rt: HostRuntime) {
    let rows = [
        (71, 40, true, 0),
        (103, 40, true, 0),
        (113, 40, true, 0),
        (112, 40, true, 0),
        (101, 40, true, 0),
        (100, 40, true, 0),
        (64, 40, true, 0),
        (92, 40, true, 0),
        (95, 40, true, 0),
        (110, 40, true, 0),
        (1, 40, true, 0),
        (24, 100, true, 100),
        (23, 3, true, 3),
        (105, 3, true, 3),
        (12, 3, true, 3),
        (24, 101, false, 100),
        (9, 1, false, 0),
        (22, 1, false, 0),
        (88, 1, false, 0),
    ];
    for (code, times, given, sleeps) in rows {
        let clock = Counting {
            sleeps: Cell::new(0),
        };
        let listener = Refusing {
            code,
            left: Cell::new(times),
        };
        let answer = accept_one(&clock, &listener);
        assert_eq!(rt; answer.is_ok(), given, "at {code}");
        assert_eq!(rt; clock.sleeps.get(), sleeps, "at {code}");
    }
}
