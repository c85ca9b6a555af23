//! What the program says of itself: its help texts and its version.
ghost use Rattle.std.specs.Prelude.{◌≡◌};
ghost use Rattle.beep_words.specs.Helps.{help_of};

use crate::command::Topic;

/// The program's name and version.
pub const VERSION_TEXT: &str = "beep 0.1.0\n";

/// Help on the program: its commands and its exit statuses.
pub const PROGRAM_HELP: &str = "\
beep carries log lines to a collector by reliable syslog (RFC 3195, RAW).

beep send    [OPTIONS]  sends the lines of standard input to a collector
beep listen  [OPTIONS]  collects lines and writes them to standard output
beep show    [OPTIONS]  lists the frames of a recorded stream
beep replay             judges a recorded session, in both directions
beep pair    [OPTIONS]  runs a schedule between two sessions in memory

beep COMMAND --help     says what options a command has
beep --version          says which version this is

Each option has a value and comes once at most, in any order, after the command.

Exit statuses:
  0  all went well            6  the dial, an accept or the link failed
  1  the words are no command 7  out of memory
  2  the input is malformed   8  the peer refused
  3  a rule of BEEP is broken 9  the end came too soon
  4  the input can't be read  10 the peer was silent for as long as --idle says
  5  the output can't be      11 as many octets came as --octets says
     written

README.md says how to begin; docs/COMMANDS.md has each option, limit and status.
";

/// Help on `show`.
pub const SHOW_HELP: &str = "\
beep show [OPTIONS]

Reads one direction of a recorded stream from standard input. Writes the header
of each frame, one line each, and the totals.

  --elements yes|no  also lists what channel zero says; without it no
  --octets N         reads at most N octets, 1 to 4294967295; without it
                     1073741824

Example: beep show --elements yes < stream.beep
docs/COMMANDS.md has the statuses and the last lines.
";

/// Help on `replay`.
pub const REPLAY_HELP: &str = "\
beep replay

Reads the record of a session from standard input, as send and listen write it
with --record yes. Lists its frames, and names the first broken rule of either
direction. It has no options.

Example: beep replay < session.record
docs/COMMANDS.md has the statuses and last lines, docs/FORMATS.md the record.
";

/// Help on `send`.
pub const SEND_HELP: &str = "\
beep send [OPTIONS]

Reads lines from standard input, to its end, and sends them to a collector. It
ends with status 0 once all of them were taken.

  --host HOST      the collector's name or address, 1 to 253 octets; without it
                   localhost
  --port N         its port, 1 to 65535; without it 601
  --profile raw    what is asked for; without it raw
  --raw-uri URI    the URI by which RAW is asked for, 1 to 255 printable
                   characters of ASCII; without it
                   http://xml.resource.org/profiles/syslog/RAW
  --window N       how many octets the peer may send on a channel before they
                   are taken, 4096 to 65536; without it 4096
  --piece N        the most octets of payload in a frame, 1 to 4096; without it
                   1024
  --idle N         how many tenths of a second the peer may be silent,
                   1 to 1000000; without it 36000, an hour
  --octets N       how many octets are read of the link at most,
                   1 to 4294967295; without it 1073741824
  --record yes|no  writes the record of the session in place of other output;
                   without it no
  --quiet yes|no   says nothing on standard error of a session that ended;
                   without it no

Example: beep send --host collector --port 10601 < lines.log
docs/COMMANDS.md has the statuses and the last lines.
";

/// Help on `listen`.
pub const LISTEN_HELP: &str = "\
beep listen [OPTIONS]

Accepts links, one after another, and writes each line that arrives to standard
output before the sender is told that it was taken.

  --bind ADDRESS   the IPv4 or IPv6 address on which links are accepted; without
                   it 0.0.0.0, each IPv4 address; :: is each IPv6 address, and
                   where the system has it so each IPv4 address too
  --port N         its port, 1 to 65535; without it 601
  --offer raw      what is offered; without it raw
  --sessions N     how many links are accepted, 1 to 65535; without it 1
  --raw-uri URI    the URI by which RAW is offered, 1 to 255 printable
                   characters of ASCII; without it
                   http://xml.resource.org/profiles/syslog/RAW
  --window N       how many octets the peer may send on a channel before they
                   are taken, 4096 to 65536; without it 4096
  --piece N        the most octets of payload in a frame, 1 to 4096; without it
                   1024
  --idle N         how many tenths of a second the peer may be silent,
                   1 to 1000000; without it 36000, an hour
  --octets N       how many octets are read of each link at most,
                   1 to 4294967295; without it 1073741824
  --record yes|no  writes the record of the one link in place of lines; with yes
                   --sessions is 1; without it no
  --quiet yes|no   says nothing on standard error of a session that ended;
                   without it no

Example: beep listen --bind 127.0.0.1 --port 10601 >> lines.log
docs/COMMANDS.md has the statuses and the last lines.
";

/// Help on `pair`.
pub const PAIR_HELP: &str = "\
beep pair [OPTIONS]

Reads a schedule from standard input, runs it between two sessions in memory,
and reports what each event did.

  --window N  the window of each channel at both ends, in octets, 4096 to 65536;
              without it 4096
  --piece N   the most octets of payload in a frame, 1 to 4096; without it 1024
  --seed N    runs the schedule that N makes, 0 to 4294967295, reads nothing and
              writes a summary; without it a schedule is read

Example: beep pair --seed 7
docs/COMMANDS.md has the statuses and the last lines, docs/FORMATS.md schedules.
";

/// The help text on a topic.
pub fn help_text(topic: Topic) -> &'static str
    ensures { result.now ≡ help_of topic }
{
    match topic {
        Topic::Program => PROGRAM_HELP,
        Topic::Show => SHOW_HELP,
        Topic::Replay => REPLAY_HELP,
        Topic::Send => SEND_HELP,
        Topic::Listen => LISTEN_HELP,
        Topic::Pair => PAIR_HELP,
    }
}
