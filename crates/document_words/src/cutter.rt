// Letters cut into words.
ghost use Rattle.std.specs.Prelude.{◌≡◌, ◌∷◌, ◌++◌, [], ℕ, List, Option, Some, None, IfOk, OnOk};
ghost use Rattle.doc_items.specs.Maps.{Key};
ghost use Rattle.document_words.specs.Words.{ended, words, words_with};

use crate::Word;
use doc_items::Memory;
use std::alloc::Global;
use std::marker::Model;
use std::mem::replace;

/// Letters on their way into words: those that were cut off, and the open one.
pub struct WordCutter {
    done: Vec<Word>,
    begun: Word,
    alloc: Global,
}

impl Drop for WordCutter {
    fn drop(self) {
        let WordCutter {
            done: _done,
            begun: _begun,
            alloc: _alloc,
        } = self;
    }
}

impl Model for WordCutter {
    ghost use Rattle.std.specs.Coded.{codes};
    ghost use Rattle.document_words.specs.Words.{CutOf};

    ghost Value = { CutOf };

    ghost coded = { Prim.hlevel (codes) };

    ghost view = { λ c. record { done = c.done.items; begun = c.begun } };
}

impl WordCutter {
    /// No letter.
    pub fn new(alloc: Global) -> WordCutter
        ensures { (ls : List (Option ℕ)) → words_with result ls ≡ words ls }
    {
        WordCutter {
            done: Vec::new(alloc),
            begun: Word::new(alloc),
            alloc,
        }
    }

    /// One more letter, or what parts words. The error is want of memory.
    pub fn put(&mut self, letter: Option<char>) -> Result<(), Memory>
        ensures { OnOk result ((ls : List (Option ℕ)) → words_with self.new ls ≡ words_with self.old (letter ∷ ls)) }
    {
        match letter {
            Some(letter) => self.begun.push(letter),
            None => self.part(),
        }
    }

    // The open word ends, if it has a letter.
    fn part(&mut self) -> Result<(), Memory>
        ensures { OnOk result ((ls : List (Option ℕ)) → words_with self.new ls ≡ words_with self.old (None ∷ ls)) }
    {
        let word = replace(&mut self.begun, Word::new(self.alloc));
        end_word(&mut self.done, word)?;
        Ok(())
    }

    /// The words.
    pub fn finish(self) -> Result<Vec<Word>, Memory>
        ensures { IfOk result (λ v. v.items ≡ words_with self []) }
    {
        let WordCutter {
            mut done,
            begun,
            alloc: _alloc,
        } = self;
        end_word(&mut done, begun)?;
        Ok(done)
    }
}

// Puts a word after others, if it has a letter.
fn end_word(done: &mut Vec<Word>, word: Word) -> Result<(), Memory>
    ensures { OnOk result ((ws : List Key) → done.old.items ++ ended word ws ≡ done.new.items ++ ws) }
{
    if !word.is_empty() {
        done.push(word)?;
    }
    Ok(())
}
