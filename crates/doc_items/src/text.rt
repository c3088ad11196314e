ghost use Rattle.std.specs.Prelude.{◌≡◌, ◌==◌, length, true, IfOk};
ghost use Rattle.std.specs.Str.{chars, encode_utf8_all};
ghost use Rattle.std.proofs.Math.Utf8.{scalars};
ghost use Rattle.doc_items.specs.Maps.{same_text};

use crate::Memory;
use std::alloc::Global;
use std::marker::Model;
use std::sync::Arc;

/// A text, seen as its list of characters (Unicode scalar values). Copies share its bytes.
#[derive(Debug, Drop)]
pub struct Text {
    string: Arc<String, Global>,
}

impl Model for Text {
    ghost use Rattle.std.specs.Prelude.{List, ℕ, string_bytes};
    ghost use Rattle.std.specs.Str.{chars};
    ghost use Rattle.std.specs.Arc.{arc_value};

    ghost Value = { List ℕ };

    ghost view = { λ t. chars (string_bytes (arc_value t.string)) };
}

impl Text {
    /// A copy of `text`.
    pub fn from_str(alloc: Global, text: &str) -> Result<Text, Memory>
        ensures { IfOk result (λ t. t ≡ chars text.now) }
    {
        let string = String::from_str(alloc, text)?;
        let string = Arc::new(alloc, string)?;
        Ok(Text { string })
    }

    /// The text as UTF-8.
    pub fn as_str(&self) -> &str
        ensures bytes { result.now ≡ encode_utf8_all self.now }
        ensures chars { chars result.now ≡ self.now }
        ensures scalars { scalars self.now ≡ true }
    {
        self.string.as_str()
    }

    /// The number of characters.
    pub fn len(&self) -> u64
        ensures { result ≡ length self.now }
    {
        self.string.chars().count() as u64
    }

    /// Whether there is no character.
    pub fn is_empty(&self) -> bool
        ensures { result ≡ (length self.now == 0) }
    {
        self.string.as_str().chars().next().is_none()
    }

    /// Whether the texts have the same characters.
    pub fn same(&self, other: &Text) -> bool
        ensures { result ≡ same_text self.now other.now }
    {
        self.string.as_str() == other.string.as_str()
    }

    /// The characters, one by one.
    pub fn to_chars(&self, alloc: Global) -> Result<Vec<char>, Memory>
        ensures { IfOk result (λ v. v.items ≡ self.now) }
    {
        self.string.chars().collect(alloc)
    }

    /// An equal text.
    pub fn copy(&self, _alloc: Global) -> Result<Text, Memory>
        ensures { IfOk result (λ t. t ≡ self.now) }
    {
        let string = Arc::try_clone(&self.string)?;
        Ok(Text { string })
    }
}
