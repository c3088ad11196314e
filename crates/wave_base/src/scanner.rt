// The scanner that all parsers share: alphabets, words, and texts cut at a byte.
ghost use Rattle.std.specs.Prelude.{◌≡◌, ◌<◌, ◌==◌, false};
ghost use Rattle.std.specs.Option.{MatchOption};
ghost use Rattle.std.specs.List.{list_any};
ghost use Rattle.wave_base.specs.Grammar.{has, is_word, before, behind, IsCut};

/// The bytes of which a word may be made.
#[derive(Clone, Copy)]
pub enum Alphabet {
    /// The user of an address: `a` to `z`, `0` to `9`, `.`, `_`, `+`, `-`.
    User,
    /// A label of a domain: `a` to `z`, `0` to `9`, `-`.
    Label,
    /// An id: `A` to `Z`, `a` to `z`, `0` to `9`, `+`, `-`, `.`, `_`, `~`, `*`.
    Id,
}

impl Alphabet {
    fn has(self, byte: u8) -> bool
        ensures { result ≡ has self byte }
    {
        if byte.is_ascii_lowercase() || byte.is_ascii_digit() {
            return true;
        }
        match self {
            Alphabet::User => matches!(byte, b'.' | b'_' | b'+' | b'-'),
            Alphabet::Label => byte == b'-',
            Alphabet::Id => byte.is_ascii_uppercase()
                || matches!(byte, b'+' | b'-' | b'.' | b'_' | b'~' | b'*'),
        }
    }
}

/// Whether the text is one byte or more of the alphabet.
pub fn is_word(alphabet: Alphabet, text: &str) -> bool
    ensures { result ≡ is_word alphabet text.now }
{
    !text.is_empty() && text.bytes().all(|byte| alphabet.has(byte))
}

/// What stands before and after the first `separator`, an ASCII character; None where there is none.
pub fn cut(text: &str, separator: char) -> Option<(&str, &str)>
    requires { separator < 128 }
    ensures { MatchOption result (list_any (λ b. b == separator) text.now ≡ false) (λ p. IsCut separator text.now p.0.now p.1.now) }
{
    text.split_once(separator)
}

/// What stands before the first `separator`; the whole text where there is none.
pub fn text_before(text: &str, separator: char) -> &str
    requires { separator < 128 }
    ensures { result.now ≡ before separator text.now }
{
    match cut(text, separator) {
        Some((front, _)) => front,
        None => text,
    }
}

/// What stands after the first `separator`; nothing where there is none.
pub fn text_after(text: &str, separator: char) -> &str
    requires { separator < 128 }
    ensures { result.now ≡ behind separator text.now }
{
    match cut(text, separator) {
        Some((_, back)) => back,
        None => "",
    }
}
