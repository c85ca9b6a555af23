//! The options of each command.
ghost use Rattle.std.specs.Prelude.{◌≡◌};
ghost use Rattle.beep_words.specs.CommandSet.{form_in, show_options, send_options, listen_options, end_options, pair_options};

use crate::form::Form;
use beep_chars::MAX_URI;
use beep_seq::{MAX_WINDOW, MIN_WINDOW};
use beep_settings::MAX_PIECE;

/// The most octets of the name of a host.
pub const MAX_HOST: usize = 253;

/// The most octets of the text of an address, those of an IPv6 address whose last 32 bits are
/// written as an IPv4 address.
pub const MAX_ADDRESS: usize = 45;

/// The greatest number of a port.
pub const MAX_PORT: u32 = 65535;

/// The most quiet reads in a row, more than a day.
pub const MAX_IDLE: u32 = 1000000;

/// The greatest number of 32 bits.
pub const MAX_SETTING: u32 = 4294967295;

/// The most links that are accepted.
pub const MAX_SESSIONS: u32 = 65535;

/// A command that has options.
#[derive(Clone, Copy, Debug, PartialEq, Eq)]
pub(crate) enum Options {
    /// Those of `show`.
    Show,
    /// None, as of `replay`.
    Replay,
    /// Those of `send`.
    Send,
    /// Those of `listen`.
    Listen,
    /// Those of `pair`.
    Pair,
}

impl Options {
    ghost use Rattle.beep_words.specs.Rows.{rows_of};

    /// The form of the values of the option of this name, where there is one.
    pub(crate) fn form(self, name: &str) -> Option<Form>
        ensures { result ≡ form_in (rows_of self) name.now }
    {
        match self {
            Options::Show => show_form(name),
            Options::Replay => None,
            Options::Send => send_form(name),
            Options::Listen => listen_form(name),
            Options::Pair => pair_form(name),
        }
    }
}

fn show_form(name: &str) -> Option<Form>
    ensures { result ≡ form_in show_options name.now }
{
    match name {
        "--elements" => Some(Form::Choice),
        "--octets" => Some(Form::Number(1, MAX_SETTING)),
        _ => None,
    }
}

fn send_form(name: &str) -> Option<Form>
    ensures { result ≡ form_in send_options name.now }
{
    match name {
        "--host" => Some(Form::Octets(MAX_HOST)),
        "--profile" => Some(Form::Raw),
        _ => end_form(name),
    }
}

fn listen_form(name: &str) -> Option<Form>
    ensures { result ≡ form_in listen_options name.now }
{
    match name {
        "--bind" => Some(Form::Address),
        "--offer" => Some(Form::Raw),
        "--sessions" => Some(Form::Number(1, MAX_SESSIONS)),
        _ => end_form(name),
    }
}

fn end_form(name: &str) -> Option<Form>
    ensures { result ≡ form_in end_options name.now }
{
    match name {
        "--port" => Some(Form::Number(1, MAX_PORT)),
        "--raw-uri" => Some(Form::Printable(MAX_URI)),
        "--window" => Some(Form::Number(MIN_WINDOW, MAX_WINDOW)),
        "--piece" => Some(Form::Number(1, MAX_PIECE)),
        "--idle" => Some(Form::Number(1, MAX_IDLE)),
        "--octets" => Some(Form::Number(1, MAX_SETTING)),
        "--record" => Some(Form::Choice),
        "--quiet" => Some(Form::Choice),
        _ => None,
    }
}

fn pair_form(name: &str) -> Option<Form>
    ensures { result ≡ form_in pair_options name.now }
{
    match name {
        "--window" => Some(Form::Number(MIN_WINDOW, MAX_WINDOW)),
        "--piece" => Some(Form::Number(1, MAX_PIECE)),
        "--seed" => Some(Form::Number(0, MAX_SETTING)),
        _ => None,
    }
}
