// Edits of conversations.
ghost use Rattle.std.specs.Prelude.{◌≡◌, ◌∷◌, [], true, Some, IsSome, IfOk};
ghost use Rattle.wave_base.specs.Grammar.{is_id};
ghost use Rattle.doc_op.specs.Actions.{actions};
ghost use Rattle.wavelet_op.specs.Acts.{Mutates, meaning};
ghost use Rattle.wavelet_op.specs.declared.op.WaveletOp.TheVariants.{Mutate};
ghost use Rattle.wavelet_op.specs.States.{apply_act};
ghost use Rattle.client_edits.specs.Asked.{manifest_name, manifest_of, anchor_attributes, IsReplied, IsContinued, IsDeleted, IsAnchored, IsAnchoredAfter, IsInline};
ghost use Rattle.client_edits.specs.declared.built.Built.TheVariants.{Ops as BuiltOps};

use crate::Built;
use crate::built::{mutated, mutation, refused, refused_talk, two};
use crate::documents::document;
use client_commands::{Phrase, Spot};
use conversation::{continue_thread, delete_blip, inline_reply, reply_to};
use doc_items::{Attributes, Memory};
use doc_op::DocOp;
use doc_rope::Rope;
use op_build::insert_element;
use std::alloc::{AllocError, Global};
use wave_base::{BaseFault, DocumentName};
use wavelet_op::{WaveletFault, WaveletOp};
use wavelet_state::{WaveletState, apply_op};

// The name of a document, of a text that is one.
fn parsed(alloc: Global, text: &str) -> Result<DocumentName, Memory>
    requires { is_id text.now ≡ true }
    ensures { IfOk result (λ n. n ≡ text.now) }
{
    match DocumentName::parse(alloc, text) {
        Ok(name) => Ok(name),
        Err(BaseFault::BadName) => unreachable!(),
        Err(BaseFault::BadAddress) => unreachable!(),
        Err(BaseFault::Memory) => Err(AllocError),
    }
}

// The name of the manifest.
fn manifest_name(alloc: Global) -> Result<DocumentName, Memory>
    ensures { IfOk result (λ n. n ≡ manifest_name) }
{
    parsed(alloc, "conversation")
}

/// A blip has a thread more, with a blip. The error is want of memory, here and below.
pub(crate) fn reply(
    alloc: Global,
    screen: &WaveletState,
    blip: &Phrase,
    thread: &Phrase,
    new_blip: &Phrase,
) -> Result<Built, Memory>
    ensures { IfOk result (IsReplied (manifest_of screen.now) blip.now thread.now new_blip.now) }
{
    let name = manifest_name(alloc)?;
    let empty = Rope::new(alloc);
    let manifest = document(screen, &empty, &name);
    match reply_to(
        alloc,
        manifest,
        blip.as_str(),
        thread.as_str(),
        new_blip.as_str(),
    ) {
        Ok(op) => mutated(alloc, &name, op),
        Err(fault) => refused_talk(fault),
    }
}

/// A thread has a blip more.
pub(crate) fn go_on(
    alloc: Global,
    screen: &WaveletState,
    thread: &Phrase,
    new_blip: &Phrase,
) -> Result<Built, Memory>
    ensures { IfOk result (IsContinued (manifest_of screen.now) thread.now new_blip.now) }
{
    let name = manifest_name(alloc)?;
    let empty = Rope::new(alloc);
    let manifest = document(screen, &empty, &name);
    match continue_thread(alloc, manifest, thread.as_str(), new_blip.as_str()) {
        Ok(op) => mutated(alloc, &name, op),
        Err(fault) => refused_talk(fault),
    }
}

/// A blip is deleted.
pub(crate) fn delete(alloc: Global, screen: &WaveletState, blip: &Phrase) -> Result<Built, Memory>
    ensures { IfOk result (IsDeleted (manifest_of screen.now) blip.now) }
{
    let name = manifest_name(alloc)?;
    let empty = Rope::new(alloc);
    let manifest = document(screen, &empty, &name);
    match delete_blip(alloc, manifest, blip.as_str()) {
        Ok(op) => mutated(alloc, &name, op),
        Err(fault) => refused_talk(fault),
    }
}

// ---- an inline reply

// The attributes of the anchor of a thread.
fn anchor_attributes(alloc: Global, thread: &Phrase) -> Result<Attributes, Memory>
    ensures { IfOk result (λ m. m ≡ anchor_attributes thread.now) }
{
    let mut attributes = Attributes::new(alloc);
    attributes.set(alloc, "id", Some(thread.as_str()))?;
    Ok(attributes)
}

// The state after an operation that is valid there.
fn led(alloc: Global, screen: &WaveletState, op: &WaveletOp) -> Result<WaveletState, Memory>
    requires { IsSome (apply_act screen.now (meaning op.now)) }
    ensures { IfOk result (λ s. apply_act screen.now (meaning op.now) ≡ Some s) }
{
    let mut after = screen.copy(alloc)?;
    match apply_op(alloc, &mut after, op) {
        Ok(()) => Ok(after),
        Err(WaveletFault::OpInvalid(_)) => unreachable!(),
        Err(WaveletFault::CountTooLarge) => unreachable!(),
        Err(WaveletFault::Conflict(_)) => unreachable!(),
        Err(WaveletFault::DontFit(_)) => unreachable!(),
        Err(WaveletFault::Memory) => Err(AllocError),
    }
}

// An operation, and then one on a document.
fn both(
    alloc: Global,
    first: WaveletOp,
    document: &DocumentName,
    op: DocOp,
) -> Result<Built, Memory>
    ensures { IfOk result (λ b. b ≡ BuiltOps (first ∷ Mutate document.now op ∷ [])) }
{
    let second = mutation(alloc, document, op)?;
    two(alloc, first, second)
}

// The anchor of a thread at the state after the first operation.
fn place_anchor(
    alloc: Global,
    after: &WaveletState,
    spot: &Spot,
    thread: &Phrase,
    first: WaveletOp,
) -> Result<Built, Memory>
    ensures { IfOk result (IsAnchored after.now spot.now thread.now (meaning first)) }
{
    let attributes = anchor_attributes(alloc, thread)?;
    let empty = Rope::new(alloc);
    let document = document(after, &empty, &spot.document);
    match insert_element(alloc, document, spot.place, "reply", &attributes) {
        Ok(op) => both(alloc, first, &spot.document, op),
        Err(fault) => refused(fault),
    }
}

// The operation on the manifest, which is valid there, and then the anchor of a thread.
fn anchored(
    alloc: Global,
    screen: &WaveletState,
    spot: &Spot,
    thread: &Phrase,
    manifest: &DocumentName,
    op: DocOp,
) -> Result<Built, Memory>
    requires { IsSome (apply_act screen.now (Mutates manifest.now (actions op))) }
    ensures { IfOk result (IsAnchoredAfter screen.now spot.now thread.now (Mutates manifest.now (actions op))) }
{
    let first = mutation(alloc, manifest, op)?;
    let after = led(alloc, screen, &first)?;
    place_anchor(alloc, &after, spot, thread, first)
}

/// The blip of a document has an inline thread more, with a blip, and an anchor in that document. It copies the state, since
/// the document may be the manifest.
pub(crate) fn reply_inline(
    alloc: Global,
    screen: &WaveletState,
    spot: &Spot,
    thread: &Phrase,
    new_blip: &Phrase,
) -> Result<Built, Memory>
    ensures { IfOk result (IsInline screen.now spot.now thread.now new_blip.now) }
{
    let name = manifest_name(alloc)?;
    let empty = Rope::new(alloc);
    let manifest = document(screen, &empty, &name);
    match inline_reply(
        alloc,
        manifest,
        spot.document.text(),
        thread.as_str(),
        new_blip.as_str(),
    ) {
        Ok(op) => anchored(alloc, screen, spot, thread, &name, op),
        Err(fault) => refused_talk(fault),
    }
}
