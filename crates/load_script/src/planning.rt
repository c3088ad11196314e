// Operations that type a letter and erase an item, made over the items where they lie.
ghost use Rattle.std.specs.Prelude.{◌≡◌, ◌+◌, ◌<◌, ◌≤◌, ◌∷◌, [], length, slice_get, string_bytes, option_map, IfOk};
ghost use Rattle.std.specs.Str.{chars};
ghost use Rattle.doc_items.specs.Limits.{max_count};
ghost use Rattle.doc_op.specs.Actions.{actions};
ghost use Rattle.op_build.specs.Plans.{typing};
ghost use Rattle.wavelet_op.specs.States.{document_of};
ghost use Rattle.load_script.specs.Edits.{letter, erasure};

use doc_items::Memory;
use doc_op::DocOp;
use doc_rope::Rope;
use op_build::{BuildFault, Items, erase, type_at};
use std::alloc::{AllocError, Global};
use wave_base::DocumentName;
use wavelet_state::WaveletState;

// The n-th letter, counted from 0, as a text.
fn letter(alloc: Global, number: u64) -> Result<String, Memory>
    requires { number < 26 }
    ensures { IfOk result (λ t. chars (string_bytes t) ≡ letter number ∷ []) }
{
    let mut text = String::new(alloc);
    text.push((b'a' + number as u8) as char)?;
    Ok(text)
}

// The operation that types a text of one character.
fn typing<D: Items>(alloc: Global, document: &D, place: u64, text: &str) -> Result<DocOp, Memory>
    requires one { length (chars text.now) ≡ 1 }
    requires place { place ≤ length (D.items document.now) }
    requires room { length (D.items document.now) < max_count }
    ensures { IfOk result (λ op. actions op ≡ typing (D.items document.now) place (chars text.now)) }
{
    match type_at(alloc, document, place, text) {
        Ok(op) => Ok(op),
        Err(BuildFault::ZeroCount) => unreachable!(),
        Err(BuildFault::OutOfRange) => unreachable!(),
        Err(BuildFault::CutsElement) => unreachable!(),
        Err(BuildFault::CountTooLarge) => unreachable!(),
        Err(BuildFault::Memory) => Err(AllocError),
    }
}

/// The operation that types the n-th letter at a place of a document.
pub(crate) fn typing_in(
    alloc: Global,
    state: &WaveletState,
    document: &DocumentName,
    place: u64,
    number: u64,
) -> Result<DocOp, Memory>
    requires number { number < 26 }
    requires place { place ≤ length (document_of state.now document.now) }
    requires room { length (document_of state.now document.now) < max_count }
    ensures { IfOk result (λ op. actions op ≡ typing (document_of state.now document.now) place (letter number ∷ [])) }
{
    let text = letter(alloc, number)?;
    match state.rope(document) {
        Some(rope) => typing(alloc, rope, place, text.as_str()),
        None => typing(alloc, &Rope::new(alloc), place, text.as_str()),
    }
}

// The operation that erases an item; None where it is no character, or not there.
fn erasing(alloc: Global, rope: &Rope, place: u64) -> Result<Option<DocOp>, Memory>
    ensures { IfOk result (λ o. option_map actions o ≡ erasure rope.now place (slice_get rope.now place)) }
{
    match erase(alloc, rope, place, 1) {
        Ok(op) => Ok(Some(op)),
        Err(BuildFault::ZeroCount) => unreachable!(),
        Err(BuildFault::OutOfRange) => Ok(None),
        Err(BuildFault::CutsElement) => Ok(None),
        Err(BuildFault::CountTooLarge) => unreachable!(),
        Err(BuildFault::Memory) => Err(AllocError),
    }
}

/// The operation that erases the item at a place of a document; None where it is no character, or not there.
pub(crate) fn erasing_in(
    alloc: Global,
    state: &WaveletState,
    document: &DocumentName,
    place: u64,
) -> Result<Option<DocOp>, Memory>
    ensures { IfOk result (λ o. option_map actions o
        ≡ erasure (document_of state.now document.now) place (slice_get (document_of state.now document.now) place)) }
{
    match state.rope(document) {
        Some(rope) => erasing(alloc, rope, place),
        None => Ok(None),
    }
}
