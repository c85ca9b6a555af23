//! Where the reader of elements stands between two octets.
//!
//! ```text
//! Lead -> Begun -> Naming -> Tag -> Attr -> Equals -> Quote -> Value -> Tag
//! Tag -> Slash -> Content (of the element round it) or Trail
//! Tag -> Content -> Begun -> Naming, or Bang -> Section -> Content
//!                   Begun -> Closing -> Closed -> Content (of the element round it) or Trail
//! ```

/// The letters of a reference by name that were read.
#[derive(Clone, Copy, Debug, PartialEq, Eq)]
pub enum Letters {
    Empty,
    A,
    Am,
    Amp,
    Ap,
    Apo,
    Apos,
    G,
    Gt,
    L,
    Lt,
    Q,
    Qu,
    Quo,
    Quot,
}

/// What of a character was read.
#[derive(Clone, Copy, Debug, PartialEq, Eq)]
pub enum Part {
    /// No octet: the next one begins a character.
    Fresh,
    /// All but one octet of its UTF-8, with the value so far.
    One(u32),
    /// All but two octets, with the value so far.
    Two(u32),
    /// All but three octets, with the value so far.
    Three(u32),
    /// A reference up to these letters.
    Name(Letters),
    /// A reference to a number: whether it is hexadecimal, whether a digit came, the value so far.
    Number(bool, bool, u32),
}

/// What one octet does to a character.
#[derive(Clone, Copy, Debug, PartialEq, Eq)]
pub enum Taken {
    /// The character is whole.
    Whole(char),
    /// More of it must come.
    More(Part),
    /// No octets can make it a character.
    Dead,
}

/// The place in the grammar.
#[derive(Clone, Copy, Debug, PartialEq, Eq)]
pub enum Mode {
    /// Before the outermost element.
    Lead,
    /// After a `<`.
    Begun,
    /// In the name of a start tag.
    Naming,
    /// In a start tag, after its name or a value; whether white space came since.
    Tag(bool),
    /// After the `/` of a start tag.
    Slash,
    /// In the name of an attribute.
    Attr,
    /// After the name of an attribute and white space.
    Equals,
    /// After the `=` of an attribute.
    Quote,
    /// In a value between two of this quote.
    Value(u8, Part),
    /// In what an element holds.
    Content(Part),
    /// After `<!` and so many octets of `[CDATA[`.
    Bang(u8),
    /// In a CDATA section, after so many `]` that may end it.
    Section(u8, Part),
    /// After `</` and so many octets of the name.
    Closing(usize),
    /// After the name of an end tag and white space.
    Closed,
    /// After the outermost element.
    Trail,
}
