// Where a word stands.
ghost use Rattle.std.specs.Prelude.{◌≡◌, ◌++◌, ◌∷◌, [], cond, map, nat_lt, IfOk, OnOk};
ghost use Rattle.std.specs.FinMap.{keys};
ghost use Rattle.std.specs.List.{filter};
ghost use Rattle.doc_items.specs.Maps.{Key};
ghost use Rattle.document_words.specs.Places.{count_in};
ghost use Rattle.document_words.specs.Words.{document_words, occurrences};
ghost use Rattle.wave_index.specs.Counts.{counted};
ghost use Rattle.wave_index.specs.Inboxes.{is_hit, hit_at};

use crate::answers::Hit;
use crate::blips::is_manifest;
use doc_items::Memory;
use doc_rope::Rope;
use document_words::{Word, WordPlaces, document_words};
use std::alloc::Global;
use wave_base::{DocumentName, WaveletName};
use wavelet_state::WaveletState;

// Whether a document has the word.
fn has_word(alloc: Global, document: &Rope, word: &Word) -> Result<bool, Memory>
    ensures { IfOk result (λ b. b ≡ nat_lt 0 (occurrences word.now (document_words document.now))) }
{
    for other in document_words(alloc, document)?.as_slice() {
        if word == other {
            return Ok(true);
        }
    }
    Ok(false)
}

// Whether the document has the word, and isn't the manifest.
fn is_hit(
    alloc: Global,
    state: &WaveletState,
    document: &DocumentName,
    word: &Word,
) -> Result<bool, Memory>
    ensures { IfOk result (λ b. b ≡ is_hit state.now word.now document.now) }
{
    if is_manifest(document) {
        return Ok(false);
    }
    match state.rope(document) {
        Some(rope) => has_word(alloc, rope, word),
        None => Ok(false),
    }
}

// Puts the document after the others, if it is a hit.
fn put_hit(
    alloc: Global,
    name: &WaveletName,
    state: &WaveletState,
    document: &DocumentName,
    word: &Word,
    hits: &mut Vec<Hit>,
) -> Result<(), Memory>
    ensures { OnOk result (hits.new.items ≡ hits.old.items
        ++ cond (is_hit state.now word.now document.now) (hit_at name.now document.now ∷ []) []) }
{
    if is_hit(alloc, state, document, word)? {
        let name = name.copy(alloc)?;
        let document = document.copy(alloc)?;
        hits.push(Hit { name, document })?;
    }
    Ok(())
}

/// Puts the documents of a state, but for the manifest, that have the word after the others. The error is want of memory.
pub(crate) fn put_hits(
    alloc: Global,
    name: &WaveletName,
    state: &WaveletState,
    word: &Word,
    hits: &mut Vec<Hit>,
) -> Result<(), Memory>
    ensures { OnOk result (hits.new.items ≡ hits.old.items
        ++ map (hit_at name.now) (filter (is_hit state.now word.now) (keys state.now.documents))) }
{
    let documents = state.document_names(alloc)?;
    for document in documents.as_slice() {
        put_hit(alloc, name, state, document, word, hits)?;
    }
    Ok(())
}

/// Puts the documents of a wavelet's state, but for the manifest, that have the word after the others, as words are kept. The error is
/// want of memory.
pub(crate) fn put_held(
    alloc: Global,
    name: &WaveletName,
    state: &WaveletState,
    places: &WordPlaces,
    word: &Word,
    hits: &mut Vec<Hit>,
) -> Result<(), Memory>
    requires { (w d : Key) → count_in places.now w name.now d ≡ counted state.now w d }
    ensures { OnOk result (hits.new.items ≡ hits.old.items
        ++ map (hit_at name.now) (filter (is_hit state.now word.now) (keys state.now.documents))) }
{
    for document in places.holders(alloc, word, name)?.as_slice() {
        let name = name.copy(alloc)?;
        let document = document.copy(alloc)?;
        hits.push(Hit { name, document })?;
    }
    Ok(())
}
