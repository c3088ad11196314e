// The words of all documents, as they are kept.
ghost use Rattle.std.specs.Prelude.{◌≡◌, ◌<◌, ℕ, ◌&&◌, cond, length, None, IfOk, OnOk, IfSome};
ghost use Rattle.doc_items.specs.Maps.{Key, same_text};
ghost use Rattle.document_words.specs.Places.{count_in};
ghost use Rattle.document_words.specs.Words.{letters, occurrences};
ghost use Rattle.wavelet_op.specs.States.{document_of};
ghost use Rattle.wave_index.specs.Counts.{touched_words, touched, moved, CountsAs};
ghost use Rattle.wave_index.specs.Edges.{edges_in, is_first};

use crate::blips::is_manifest;
use crate::edges::{edges_in, is_mutated};
use doc_items::Memory;
use document_words::{Word, WordPlaces, stretch_words};
use std::alloc::Global;
use wave_base::{DocumentName, WaveletName};
use wavelet_op::WaveletOp;
use wavelet_state::WaveletState;

/// Whether words are taken out of those that are kept, or put in.
#[derive(Clone, Copy, Debug)]
pub(crate) enum Way {
    Out,
    In,
}

/// The words of the documents at the heads of wavelets, but for the manifests'; None after want of memory.
pub(crate) struct KeptWords {
    pub places: Option<WordPlaces>,
}

impl Drop for KeptWords {
    fn drop(self) {
        let KeptWords { places: _places } = self;
    }
}

// The words of what operations touch of a document.
fn touched_words(
    alloc: Global,
    state: &WaveletState,
    document: &DocumentName,
    ops: &[WaveletOp],
) -> Result<Vec<Word>, Memory>
    ensures { IfOk result (λ v. v.items ≡ touched_words (edges_in document.now ops.now) (letters (document_of state.now document.now))) }
{
    let edges = edges_in(document, ops);
    let Some(front) = edges.front else {
        return Ok(Vec::new(alloc));
    };
    match state.rope(document) {
        Some(rope) => stretch_words(alloc, rope, front, edges.back),
        None => Ok(Vec::new(alloc)),
    }
}

// Words of a document are taken out or put in.
fn move_words(
    alloc: Global,
    places: &mut WordPlaces,
    words: &[Word],
    name: &WaveletName,
    document: &DocumentName,
    way: Way,
) -> Result<(), Memory>
    ensures { OnOk result ((w n d : Key) → count_in places.new w n d
        ≡ moved way (count_in places.old w n d) (cond (same_text name.now n && same_text document.now d) (occurrences w words.now) 0)) }
{
    match way {
        Way::Out => {
            places.take_out_all(words, name, document);
            Ok(())
        }
        Way::In => places.put_all(alloc, words, name, document),
    }
}

// The words of what operations touch of a document are taken out or put in.
fn move_document(
    alloc: Global,
    places: &mut WordPlaces,
    name: &WaveletName,
    state: &WaveletState,
    document: &DocumentName,
    ops: &[WaveletOp],
    way: Way,
) -> Result<(), Memory>
    ensures { OnOk result ((w n d : Key) → count_in places.new w n d
        ≡ moved way (count_in places.old w n d)
        (cond (same_text name.now n && same_text document.now d) (touched state.now ops.now w d) 0)) }
{
    if is_manifest(document) {
        return Ok(());
    }
    let words = touched_words(alloc, state, document, ops)?;
    move_words(alloc, places, words.as_slice(), name, document, way)
}

// The same for the document of the operation at a place, where that is the first operation on it.
fn move_first(
    alloc: Global,
    places: &mut WordPlaces,
    name: &WaveletName,
    state: &WaveletState,
    ops: &[WaveletOp],
    place: usize,
    way: Way,
) -> Result<(), Memory>
    requires { place < length ops.now }
    ensures { OnOk result ((w n d : Key) → count_in places.new w n d
        ≡ moved way (count_in places.old w n d)
        (cond (same_text name.now n && is_first d ops.now place) (touched state.now ops.now w d) 0)) }
{
    let WaveletOp::Mutate { document, .. } = &ops[place] else {
        return Ok(());
    };
    if is_mutated(document, &ops[..place]) {
        return Ok(());
    }
    move_document(alloc, places, name, state, document, ops, way)
}

// The words of what operations touch are taken out or put in.
fn move_all(
    alloc: Global,
    places: &mut WordPlaces,
    name: &WaveletName,
    state: &WaveletState,
    ops: &[WaveletOp],
    way: Way,
) -> Result<(), Memory>
    ensures { OnOk result ((w n d : Key) → count_in places.new w n d
        ≡ moved way (count_in places.old w n d) (cond (same_text name.now n) (touched state.now ops.now w d) 0)) }
{
    for place in 0..ops.len() {
        move_first(alloc, places, name, state, ops, place, way)?;
    }
    Ok(())
}

// What is kept after the words of what operations touch are taken out or put in; None after want of memory.
fn shifted(
    alloc: Global,
    mut places: WordPlaces,
    name: &WaveletName,
    state: &WaveletState,
    ops: &[WaveletOp],
    way: Way,
) -> Option<WordPlaces>
    ensures { IfSome result (λ p. (w n d : Key) → count_in p w n d
        ≡ moved way (count_in places w n d) (cond (same_text name.now n) (touched state.now ops.now w d) 0)) }
{
    match move_all(alloc, &mut places, name, state, ops, way) {
        Ok(()) => Some(places),
        Err(_) => None,
    }
}

impl KeptWords {
    /// The words of no wavelet.
    pub fn new(alloc: Global) -> KeptWords
        ensures { CountsAs result.places (λ w n d. 0) }
    {
        KeptWords {
            places: Some(WordPlaces::new(alloc)),
        }
    }

    /// No words are kept, as after want of memory.
    pub fn none() -> KeptWords
        ensures { result.places ≡ None }
    {
        KeptWords { places: None }
    }

    /// The words of what operations touch of the documents of a wavelet at a state are taken out or put in. None are kept after want
    /// of memory.
    pub fn shift(
        &mut self,
        alloc: Global,
        name: &WaveletName,
        state: &WaveletState,
        ops: &[WaveletOp],
        way: Way,
    )
        ensures { (f : Key → Key → Key → ℕ) → CountsAs self.old.places f
            → CountsAs self.new.places (λ w n d. moved way (f w n d) (cond (same_text name.now n) (touched state.now ops.now w d) 0)) }
    {
        if let Some(places) = self.places.take() {
            self.places = shifted(alloc, places, name, state, ops, way);
        }
    }
}
