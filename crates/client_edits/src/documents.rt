// Edits of documents.
ghost use Rattle.std.specs.Prelude.{◌≡◌, [], IfOk};
ghost use Rattle.std.specs.Option.{option_copied};
ghost use Rattle.std.specs.FinMap.{empty};
ghost use Rattle.doc_items.specs.Balance.{Balanced};
ghost use Rattle.wavelet_op.specs.States.{document_of};
ghost use Rattle.client_edits.specs.Asked.{IsTyped, IsPlaced, IsErased, IsNoted};

use crate::Built;
use crate::built::{mutated, refused};
use client_commands::{Phrase, Spot, Stretch};
use doc_items::{Attributes, Memory};
use doc_rope::Rope;
use op_build::{annotate, erase, insert_element, type_at};
use std::alloc::Global;
use wave_base::DocumentName;
use wavelet_state::WaveletState;

/// The document of a name; one that isn't there is the empty one.
#[tactic(auto, using(crate::proofs::Building::there, crate::proofs::Building::absent))]
pub(crate) fn document<'a>(
    screen: &'a WaveletState,
    empty: &'a Rope,
    name: &DocumentName,
) -> &'a Rope
    requires { empty.now ≡ [] }
    ensures value { result.now ≡ document_of screen.entry.now name.now }
    ensures balanced { Balanced (document_of screen.entry.now name.now) }
{
    match screen.rope(name) {
        Some(rope) => rope,
        None => empty,
    }
}

/// A text comes in. The error is want of memory, here and below.
pub(crate) fn write(
    alloc: Global,
    screen: &WaveletState,
    spot: &Spot,
    text: &Phrase,
) -> Result<Built, Memory>
    ensures { IfOk result (IsTyped (document_of screen.now spot.now.document) spot.now text.now) }
{
    let empty = Rope::new(alloc);
    let document = document(screen, &empty, &spot.document);
    match type_at(alloc, document, spot.place, text.as_str()) {
        Ok(op) => mutated(alloc, &spot.document, op),
        Err(fault) => refused(fault),
    }
}

/// An element without attributes comes in.
pub(crate) fn place_element(
    alloc: Global,
    screen: &WaveletState,
    spot: &Spot,
    kind: &Phrase,
) -> Result<Built, Memory>
    ensures { IfOk result (IsPlaced (document_of screen.now spot.now.document) spot.now kind.now empty) }
{
    let empty = Rope::new(alloc);
    let document = document(screen, &empty, &spot.document);
    let attributes = Attributes::new(alloc);
    match insert_element(alloc, document, spot.place, kind.as_str(), &attributes) {
        Ok(op) => mutated(alloc, &spot.document, op),
        Err(fault) => refused(fault),
    }
}

/// Items go.
pub(crate) fn erase_stretch(
    alloc: Global,
    screen: &WaveletState,
    stretch: &Stretch,
) -> Result<Built, Memory>
    ensures { IfOk result (IsErased (document_of screen.now stretch.now.document) stretch.now) }
{
    let empty = Rope::new(alloc);
    let document = document(screen, &empty, &stretch.document);
    match erase(alloc, document, stretch.from, stretch.count) {
        Ok(op) => mutated(alloc, &stretch.document, op),
        Err(fault) => refused(fault),
    }
}

// The text of a phrase, if there is one.
fn text_of(value: &Option<Phrase>) -> Option<&str>
    ensures { option_copied result ≡ value.entry.now }
{
    match value {
        Some(phrase) => Some(phrase.as_str()),
        None => None,
    }
}

/// Items get an annotation, or lose it where there is no value.
pub(crate) fn note_stretch(
    alloc: Global,
    screen: &WaveletState,
    stretch: &Stretch,
    key: &Phrase,
    value: &Option<Phrase>,
) -> Result<Built, Memory>
    ensures { IfOk result (IsNoted (document_of screen.now stretch.now.document) stretch.now key.now value.now) }
{
    let empty = Rope::new(alloc);
    let document = document(screen, &empty, &stretch.document);
    match annotate(
        alloc,
        document,
        stretch.from,
        stretch.count,
        key.as_str(),
        text_of(value),
    ) {
        Ok(op) => mutated(alloc, &stretch.document, op),
        Err(fault) => refused(fault),
    }
}
