use super::*;

/// Fails in so many calls by this kind of error, and then reads one octet and takes all.
#[derive(Drop)]
struct Stutter {
    left: u32,
    kind: ErrorKind,
}

impl Stutter {
    fn stutter(&mut self) -> io::Result<()> {
        if self.left == 0 {
            return Ok(());
        }
        self.left -= 1;
        Err(io::Error::from(self.kind))
    }
}

impl Read for Stutter {
    fn read(&mut self, buf: &mut [u8]) -> io::Result<usize> {
        self.stutter()?;
        Ok(buf.len().min(1))
    }
}

impl Write for Stutter {
    fn write(&mut self, buf: &[u8]) -> io::Result<usize> {
        self.stutter()?;
        Ok(buf.len())
    }

    fn flush(&mut self) -> io::Result<()> {
        Ok(())
    }
}

fn failing(left: u32, kind: ErrorKind) -> Stutter {
    Stutter { left, kind }
}

/// What a call answers, its error by its kind.
fn kinds<T>(answer: io::Result<T>) -> Result<T, ErrorKind> {
    answer.map_err(|e| e.kind())
}

// The interrupted calls, what a read into two octets answers, and what a write of two does.
#[test]
fn an_interrupted_call_is_asked_again(rt: HostRuntime) {
    let interrupted = ErrorKind::Interrupted;
    let rows = [
        (0, Ok(1), Ok(2)),
        (15, Ok(1), Ok(2)),
        (16, Err(interrupted), Err(interrupted)),
    ];
    for (left, read, written) in rows {
        let mut from = failing(left, interrupted);
        assert_eq!(rt; kinds(read_once(&mut from, &mut [0; 2])), read, "at {left}");
        let mut to = failing(left, interrupted);
        assert_eq!(rt; kinds(write_once(&mut to, b"ok")), written, "at {left}");
    }
    let none = kinds(write_once(&mut failing(0, interrupted), b""));
    assert_eq!(rt; none, Err(ErrorKind::WriteZero));
}

// An error of the system, what a read of a link answers, and what a write of one does. The codes are
// those of Linux: EAGAIN, ETIMEDOUT, ECONNRESET, EHOSTUNREACH.
#[test]
fn only_a_read_that_waited_in_vain_is_quiet(rt: HostRuntime) {
    let rows = [
        (11, Ok(Got::Quiet), ErrorKind::TimedOut),
        (110, Err(ErrorKind::TimedOut), ErrorKind::TimedOut),
        (
            104,
            Err(ErrorKind::ConnectionReset),
            ErrorKind::ConnectionReset,
        ),
        (
            113,
            Err(ErrorKind::HostUnreachable),
            ErrorKind::HostUnreachable,
        ),
    ];
    for (code, got, refused) in rows {
        let kind = io::Error::from_raw_os_error(code).kind();
        let mut from = failing(1, kind);
        assert_eq!(rt; kinds(got_once(&mut from, &mut [0; 2])), got, "at {code}");
        let mut to = failing(1, kind);
        assert_eq!(rt;
            kinds(write_once(&mut to, b"ok")),
            Err(refused),
            "at {code}"
        );
    }
}
