ghost use Rattle.std.specs.Prelude.{◌≡◌, IfOk};

use doc_items::Memory;
use std::alloc::Global;
use std::marker::Model;

/// A text in a command. Seen as its UTF-8 bytes.
#[derive(Drop)]
pub struct Phrase {
    text: String,
}

impl Model for Phrase {
    ghost use Rattle.std.specs.Prelude.{List, ℕ, string_bytes};

    ghost Value = { List ℕ };

    ghost view = { λ p. string_bytes p.text };
}

impl Phrase {
    /// The phrase of this text. The error is want of memory.
    pub fn from_str(alloc: Global, text: &str) -> Result<Phrase, Memory>
        ensures { IfOk result (λ p. p ≡ text.now) }
    {
        let text = String::from_str(alloc, text)?;
        Ok(Phrase { text })
    }

    /// The text.
    pub fn as_str(&self) -> &str
        ensures { result.now ≡ self.now }
    {
        self.text.as_str()
    }
}
