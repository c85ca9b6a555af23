//! The classes of characters (RFC 3080, section 6.4).
ghost use Rattle.std.specs.Prelude.{◌≡◌, chars};
ghost use Rattle.std.specs.List.{list_all};
ghost use Rattle.beep_chars.specs.Characters.{is_space, is_allowed, is_digit, is_name_start, is_name_char};

/// The last character before the surrogates, which are no characters.
const LAST_BEFORE_SURROGATES: char = '\u{D7FF}';

/// The first character after the surrogates.
const FIRST_AFTER_SURROGATES: char = '\u{E000}';

/// The last character of 16 bits that an element may hold: the two after it are none.
const LAST_OF_16_BITS: char = '\u{FFFD}';

/// The first character that needs more than 16 bits.
const FIRST_ABOVE_16_BITS: char = '\u{10000}';

/// Whether the character is white space.
pub fn is_space(character: char) -> bool
    ensures { result ≡ is_space character }
{
    character == ' ' || character == '\t' || character == '\r' || character == '\n'
}

/// Whether an element may hold the character.
pub fn is_allowed(character: char) -> bool
    ensures { result ≡ is_allowed character }
{
    character == '\t'
        || character == '\n'
        || character == '\r'
        || (' ' <= character && character <= LAST_BEFORE_SURROGATES)
        || (FIRST_AFTER_SURROGATES <= character && character <= LAST_OF_16_BITS)
        || FIRST_ABOVE_16_BITS <= character
}

/// Whether an element may hold each of the characters.
pub fn are_allowed(characters: &str) -> bool
    ensures { result ≡ list_all is_allowed (chars characters.now) }
{
    characters.chars().all(|c| is_allowed(c))
}

/// Whether a name may begin with the character.
pub fn is_name_start(character: char) -> bool
    ensures { result ≡ is_name_start character }
{
    ('A' <= character && character <= 'Z')
        || ('a' <= character && character <= 'z')
        || character == '_'
}

/// Whether a name may go on with the character.
pub fn is_name_char(character: char) -> bool
    ensures { result ≡ is_name_char character }
{
    is_name_start(character)
        || is_digit(character)
        || character == '-'
        || character == '.'
        || character == ':'
}

fn is_digit(character: char) -> bool
    ensures { result ≡ is_digit character }
{
    '0' <= character && character <= '9'
}
