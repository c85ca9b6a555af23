//! The kind of a data frame (RFC 3080, section 2.2.1.1).

/// What a data frame belongs to: a request, or one of the four forms of a reply.
#[derive(Clone, Copy, Debug, PartialEq, Eq)]
pub enum Kind {
    /// A request.
    Msg,
    /// A positive reply in one message.
    Rpy,
    /// A negative reply in one message.
    Err,
    /// One answer of a reply in many messages.
    Ans,
    /// The end of a reply in many messages.
    Nul,
}

impl Kind {
    ghost use Rattle.std.specs.Prelude.{◌≡◌};
    ghost use Rattle.beep_frame.specs.Frame.{is_msg, is_ans, is_nul, is_reply, same_kind};

    /// Whether it belongs to a request.
    pub fn is_msg(self) -> bool
        ensures { result ≡ is_msg self }
    {
        matches!(self, Kind::Msg)
    }

    /// Whether it is one answer of a reply in many messages.
    pub fn is_ans(self) -> bool
        ensures { result ≡ is_ans self }
    {
        matches!(self, Kind::Ans)
    }

    /// Whether it ends a reply in many messages.
    pub fn is_nul(self) -> bool
        ensures { result ≡ is_nul self }
    {
        matches!(self, Kind::Nul)
    }

    /// Whether it belongs to a reply.
    pub fn is_reply(self) -> bool
        ensures { result ≡ is_reply self }
    {
        !self.is_msg()
    }

    /// Whether it is this kind.
    pub fn is_same(self, kind: Kind) -> bool
        ensures { result ≡ same_kind self kind }
    {
        match self {
            Kind::Msg => matches!(kind, Kind::Msg),
            Kind::Rpy => matches!(kind, Kind::Rpy),
            Kind::Err => matches!(kind, Kind::Err),
            Kind::Ans => matches!(kind, Kind::Ans),
            Kind::Nul => matches!(kind, Kind::Nul),
        }
    }
}
