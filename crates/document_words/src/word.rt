ghost use Rattle.std.specs.Prelude.{◌≡◌, ◌==◌, ◌++◌, [], length, encode_utf8, IfOk, OnOk, OnErr};
ghost use Rattle.std.specs.Cmp.{partial_order_from_own_ties};
ghost use Rattle.std.specs.Cmp.Lexicographic.{slice_cmp, pointwise};
ghost use Rattle.std.specs.Cmp.Rules.{comparing};
ghost use Rattle.std.specs.Ordering.{nat_cmp, as_partial_cmp};
ghost use Rattle.std.proofs.Common.{rules};

use doc_items::Memory;
use std::alloc::Global;
use std::cmp::Ordering;
use std::marker::Model;

/// A word, or the front of one. Seen as its UTF-8 bytes.
#[derive(Debug, Drop)]
pub struct Word {
    text: String,
}

impl Model for Word {
    ghost use Rattle.std.specs.Prelude.{List, ℕ, string_bytes};

    ghost Value = { List ℕ };

    ghost view = { λ w. string_bytes w.text };
}

impl Word {
    /// No letter.
    pub(crate) fn new(alloc: Global) -> Word
        ensures { result ≡ [] }
    {
        Word {
            text: String::new(alloc),
        }
    }

    /// The word of this text.
    pub fn from_str(alloc: Global, text: &str) -> Result<Word, Memory>
        ensures { IfOk result (λ w. w ≡ text.now) }
    {
        let text = String::from_str(alloc, text)?;
        Ok(Word { text })
    }

    /// The text.
    pub fn text(&self) -> &str
        ensures { result.now ≡ self.now }
    {
        self.text.as_str()
    }

    /// Whether there is no letter.
    pub(crate) fn is_empty(&self) -> bool
        ensures { result ≡ (length self.now == 0) }
    {
        self.text.as_str().is_empty()
    }

    /// One more letter at the end. After want of memory the word is as it was.
    pub(crate) fn push(&mut self, letter: char) -> Result<(), Memory>
        ensures ok { OnOk result (self.new ≡ self.old ++ encode_utf8 letter) }
        ensures err { OnErr result (self.new ≡ self.old) }
    {
        self.text.push(letter)?;
        Ok(())
    }

    /// An equal word.
    pub fn copy(&self, alloc: Global) -> Result<Word, Memory>
        ensures { IfOk result (λ w. w ≡ self.now) }
    {
        let text = String::from_str(alloc, self.text.as_str())?;
        Ok(Word { text })
    }
}

impl PartialEq for Word {
    ghost eq = { pointwise ◌==◌ };

    ghost laws = { Prim.search (comparing, rules) };

    fn eq(&self, other: &Word) -> bool {
        self.text.as_str() == other.text.as_str()
    }
}

impl Eq for Word {
    ghost laws = { Prim.search (comparing, rules) };
}

impl Ord for Word {
    ghost cmp = { slice_cmp nat_cmp };

    ghost total = { Prim.search (comparing, rules) };

    ghost matches_partial_cmp = { Prim.search (comparing, rules) };

    ghost matches_eq = { Prim.search (comparing, rules) };

    fn cmp(&self, other: &Word) -> Ordering {
        self.text.as_str().cmp(other.text.as_str())
    }
}

impl PartialOrd for Word {
    ghost partial_cmp = { as_partial_cmp (slice_cmp nat_cmp) };

    ghost laws = { partial_order_from_own_ties (Prim.search (comparing, rules)) (Prim.search (comparing, rules)) };

    fn partial_cmp(&self, other: &Word) -> Option<Ordering> {
        Some(self.cmp(other))
    }
}
