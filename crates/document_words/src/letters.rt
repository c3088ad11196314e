// The letters of words.
ghost use Rattle.std.specs.Prelude.{◌≡◌};
ghost use Rattle.document_words.specs.Words.{is_letter, letter_of};

use doc_items::Content;

// Whether the character is of a word: an ASCII letter or digit, or from U+0080 on.
fn is_letter(c: char) -> bool
    ensures { result ≡ is_letter c }
{
    c.is_ascii_alphanumeric() || c >= '\u{80}'
}

/// The letter of a word that the content is; None parts words.
pub fn letter(content: &Content) -> Option<char>
    ensures { result ≡ letter_of content.now }
{
    match content {
        Content::Character(c) => { if is_letter(*c) { Some(*c) } else { None } }
        Content::Start { .. } => None,
        Content::End => None,
    }
}
