//! What an answer to a request of channel zero waits for (RFC 3080, section 2.3.1.3).

/// What an answer waits for, beside those before it.
#[derive(Clone, Copy, Debug, PartialEq, Eq)]
pub enum Wait {
    /// Nothing else: it is given as soon as those before it are.
    Nothing,
    /// That the life of this number has ended or is drained.
    Life(u32),
    /// That all lives above zero are drained, and that no own request of channel zero waits but
    /// closes of 0.
    All,
}
