// The words of documents and of stretches of them.
ghost use Rattle.std.specs.Prelude.{◌≡◌, ◌+◌, ◌<◌, ◌≤◌, nat_le, length, take, drop, IfOk};
ghost use Rattle.document_words.specs.Stretches.{has_letter, begin_of, end_of, stretch};
ghost use Rattle.document_words.specs.Words.{letters, words, document_words};

use crate::{Word, WordCutter, letter};
use doc_items::Memory;
use doc_rope::Rope;
use std::alloc::Global;

// Whether there is a letter of a word at a place.
fn has_letter(document: &Rope, place: u64) -> bool
    ensures { result ≡ has_letter (letters document.now) place }
{
    match document.item(place) {
        Some(item) => letter(&item.content).is_some(),
        None => false,
    }
}

// Where the word that reaches up to a place begins.
fn begin(document: &Rope, place: u64) -> u64
    ensures value { result ≡ begin_of (letters document.now) place }
    ensures before { result ≤ place }
{
    for steps in 0..place {
        let begin = place - steps;
        if !has_letter(document, begin - 1) {
            return begin;
        }
    }
    0
}

// Where the word that goes on from a place ends.
fn end(document: &Rope, place: u64) -> u64
    requires { place ≤ length document.now }
    ensures value { result ≡ end_of (letters document.now) place }
    ensures after { place ≤ result }
    ensures inside { result ≤ length document.now }
{
    for end in place..document.len() {
        if !has_letter(document, end) {
            return end;
        }
    }
    document.len()
}

// The words of what lies between two places.
fn words_between(alloc: Global, document: &Rope, from: u64, until: u64) -> Result<Vec<Word>, Memory>
    requires order { from ≤ until }
    requires inside { until ≤ length document.now }
    ensures { IfOk result (λ v. v.items ≡ words (letters (drop from (take until document.now)))) }
{
    let mut cutter = WordCutter::new(alloc);
    for place in from..until {
        let Some(item) = document.item(place) else {
            return cutter.finish();
        };
        cutter.put(letter(&item.content))?;
    }
    cutter.finish()
}

/// The words of a document, in order. The error is want of memory.
pub fn document_words(alloc: Global, document: &Rope) -> Result<Vec<Word>, Memory>
    ensures { IfOk result (λ v. v.items ≡ document_words document.now) }
{
    words_between(alloc, document, 0, document.len())
}

// Whether there are so many items at the front and at the back.
fn fits(front: u64, back: u64, len: u64) -> bool
    ensures { result ≡ nat_le (front + back) len }
{
    front <= len && back <= len - front
}

/// The words of a document but for the `front` first and the `back` last items, with those that reach into these; of the whole
/// document where it hasn't so many items. The error is want of memory.
pub fn stretch_words(
    alloc: Global,
    document: &Rope,
    front: u64,
    back: u64,
) -> Result<Vec<Word>, Memory>
    ensures { IfOk result (λ v. v.items ≡ words (stretch front back (letters document.now))) }
{
    let len = document.len();
    if !fits(front, back, len) {
        return document_words(alloc, document);
    }
    let from = begin(document, front);
    let until = end(document, len - back);
    words_between(alloc, document, from, until)
}
