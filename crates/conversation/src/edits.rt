// The operations on a manifest.
ghost use Rattle.std.specs.Prelude.{◌≡◌, ◌≢◌, ◌+◌, [], ◌<◌, true, false, length, IfOk, IfErr, OnOk, MatchOption};
ghost use Rattle.doc_items.specs.Balance.{Balanced};
ghost use Rattle.conversation.specs.Edits.{is_taken, replied, continued, deleted};
ghost use Rattle.conversation.specs.Refusals.{IsTreeEdit, IsAppended, AreNew, IsTaken, IsMissing, IsTakenFault, IsAppendFault, IsReplyRefused, IsNextRefused, IsDeleteRefused};
ghost use Rattle.conversation.specs.Search.{IsBegun, IsRootless};
ghost use Rattle.conversation.specs.Trees.{thread_tree};
ghost use Rattle.op_build.specs.Edits.{bare};

use crate::contents::{first_contents, next_contents, reply_contents};
use crate::search::{Found, Want, end_behind, find, find_root};
use crate::{ConversationFault, Id};
use doc_items::Content;
use doc_op::DocOp;
use op_build::{BuildFault, Items, insert_contents, set_attribute};
use std::alloc::Global;

/// The operation that appends a thread with one new blip as the last one of the blip. Refusals, in this order: `NoBlip` where the blip
/// isn't in the tree; `TakenId` with the first of the new ids that a blip or thread has, or with the blip's where both are equal;
/// `CountTooLarge` where the manifest would have more than `MAX_COUNT` items.
pub fn reply_to<D: Items>(
    alloc: Global,
    manifest: &D,
    blip: &str,
    thread: &str,
    new_blip: &str,
) -> Result<DocOp, ConversationFault>
    requires { Balanced (D.items manifest.now) }
    ensures edit { IfOk result
        (λ op. IsTreeEdit op (D.items manifest.now) (replied false blip.now thread.now new_blip.now (thread_tree (D.items manifest.now)))) }
    ensures new { OnOk result (AreNew (thread_tree (D.items manifest.now)) thread.now new_blip.now) }
    ensures refused { IfErr result (IsReplyRefused (D.items manifest.now) blip.now thread.now new_blip.now) }
{
    reply(alloc, manifest, false, blip, thread, new_blip)
}

/// As `reply_to`, and the thread is inline. Its anchor in the document of the blip is an element `reply` with the thread's `id`, made by
/// `insert_element`.
pub fn inline_reply<D: Items>(
    alloc: Global,
    manifest: &D,
    blip: &str,
    thread: &str,
    new_blip: &str,
) -> Result<DocOp, ConversationFault>
    requires { Balanced (D.items manifest.now) }
    ensures edit { IfOk result
        (λ op. IsTreeEdit op (D.items manifest.now) (replied true blip.now thread.now new_blip.now (thread_tree (D.items manifest.now)))) }
    ensures new { OnOk result (AreNew (thread_tree (D.items manifest.now)) thread.now new_blip.now) }
    ensures refused { IfErr result (IsReplyRefused (D.items manifest.now) blip.now thread.now new_blip.now) }
{
    reply(alloc, manifest, true, blip, thread, new_blip)
}

fn reply<D: Items>(
    alloc: Global,
    manifest: &D,
    inline: bool,
    blip: &str,
    thread: &str,
    new_blip: &str,
) -> Result<DocOp, ConversationFault>
    requires { Balanced (D.items manifest.now) }
    ensures edit { IfOk result
        (λ op. IsTreeEdit op (D.items manifest.now)
        (replied inline blip.now thread.now new_blip.now (thread_tree (D.items manifest.now)))) }
    ensures new { OnOk result (AreNew (thread_tree (D.items manifest.now)) thread.now new_blip.now) }
    ensures refused { IfErr result (IsReplyRefused (D.items manifest.now) blip.now thread.now new_blip.now) }
{
    let Some(found) = find(manifest, Want::OfBlip, blip) else {
        return Err(no_blip(alloc, blip));
    };
    if let Some(fault) = taken(alloc, manifest, thread, new_blip) {
        return Err(fault);
    }
    let contents = reply_contents(alloc, inline, thread, new_blip)?;
    match append(alloc, manifest, &found, &contents) {
        Ok(op) => Ok(op),
        Err(fault) => Err(fault),
    }
}

// The fault of a blip or thread that isn't there.
fn no_blip(alloc: Global, id: &str) -> ConversationFault
    ensures { IsMissing id.now result }
{
    match Id::from_str(alloc, id) {
        Ok(id) => ConversationFault::NoBlip(id),
        Err(_) => ConversationFault::Memory,
    }
}

// The fault of an id that is taken.
fn taken_id(alloc: Global, id: &str) -> ConversationFault
    ensures { IsTakenFault (λ i. i ≡ id.now) result }
{
    match Id::from_str(alloc, id) {
        Ok(id) => ConversationFault::TakenId(id),
        Err(_) => ConversationFault::Memory,
    }
}

// Whether a blip or a thread has the id.
fn is_taken<D: Items>(manifest: &D, id: &str) -> bool
    requires { Balanced (D.items manifest.now) }
    ensures { result ≡ is_taken id.now (thread_tree (D.items manifest.now)) }
{
    find(manifest, Want::OfAny, id).is_some()
}

// Why the two ids aren't new; None exactly where they are.
fn taken<D: Items>(
    alloc: Global,
    manifest: &D,
    thread: &str,
    new_blip: &str,
) -> Option<ConversationFault>
    requires { Balanced (D.items manifest.now) }
    ensures { MatchOption result (AreNew (thread_tree (D.items manifest.now)) thread.now new_blip.now)
        (IsTakenFault (IsTaken (thread_tree (D.items manifest.now)) thread.now new_blip.now)) }
{
    if is_taken(manifest, thread) {
        return Some(taken_id(alloc, thread));
    }
    if is_taken(manifest, new_blip) {
        return Some(taken_id(alloc, new_blip));
    }
    if thread == new_blip {
        return Some(taken_id(alloc, new_blip));
    }
    None
}

// The operation that inserts the contents at the end of the node's element.
fn append<D: Items>(
    alloc: Global,
    manifest: &D,
    found: &Found,
    contents: &[Content],
) -> Result<DocOp, ConversationFault>
    requires begun { IsBegun (D.items manifest.now) found.now }
    requires some { 0 < length contents.now }
    requires balanced { Balanced (bare contents.now) }
    ensures ok { IfOk result (λ op. IsAppended op (D.items manifest.now) found.now contents.now) }
    ensures refused { IfErr result (IsAppendFault (length (D.items manifest.now) + length contents.now)) }
{
    // For the proof: the manifest has no more items than a document may.
    let _total = manifest.len();
    let place = found.place + 1;
    let end = place + end_behind(manifest, place, found.reading);
    match insert_contents(alloc, manifest, end, contents) {
        Ok(op) => Ok(op),
        Err(BuildFault::CountTooLarge) => Err(ConversationFault::CountTooLarge),
        Err(BuildFault::Memory) => Err(ConversationFault::Memory),
        Err(_) => unreachable!(),
    }
}

/// The operation that sets `deleted` of the blip to `true`; it stays in the tree. Refusal: `NoBlip` where the blip isn't in the tree.
pub fn delete_blip<D: Items>(
    alloc: Global,
    manifest: &D,
    blip: &str,
) -> Result<DocOp, ConversationFault>
    requires { Balanced (D.items manifest.now) }
    ensures edit { IfOk result (λ op. IsTreeEdit op (D.items manifest.now) (deleted blip.now (thread_tree (D.items manifest.now)))) }
    ensures refused { IfErr result (IsDeleteRefused (D.items manifest.now) blip.now) }
{
    let Some(found) = find(manifest, Want::OfBlip, blip) else {
        return Err(no_blip(alloc, blip));
    };
    match set_attribute(alloc, manifest, found.place, "deleted", Some("true")) {
        Ok(op) => Ok(op),
        Err(BuildFault::Memory) => Err(ConversationFault::Memory),
        Err(_) => unreachable!(),
    }
}

/// The operation that appends a new blip to the thread; the empty text names the root thread. Where there is no conversation yet the
/// operation appends one to the document. Refusals, in this order: `NoBlip` where the thread isn't in the tree; `TakenId` where a blip
/// or thread has the new id; `CountTooLarge` where the manifest would have more than `MAX_COUNT` items.
pub fn continue_thread<D: Items>(
    alloc: Global,
    manifest: &D,
    thread: &str,
    new_blip: &str,
) -> Result<DocOp, ConversationFault>
    requires { Balanced (D.items manifest.now) }
    ensures edit { IfOk result
        (λ op. IsTreeEdit op (D.items manifest.now) (continued thread.now new_blip.now (thread_tree (D.items manifest.now)))) }
    ensures new { OnOk result (is_taken new_blip.now (thread_tree (D.items manifest.now)) ≡ false) }
    ensures refused { IfErr result (IsNextRefused (D.items manifest.now) thread.now new_blip.now) }
{
    if thread.is_empty() {
        continue_root(alloc, manifest, new_blip)
    } else {
        continue_named(alloc, manifest, thread, new_blip)
    }
}

// A thread of the tree goes on.
fn continue_named<D: Items>(
    alloc: Global,
    manifest: &D,
    thread: &str,
    new_blip: &str,
) -> Result<DocOp, ConversationFault>
    requires balanced { Balanced (D.items manifest.now) }
    requires named { thread.now ≢ [] }
    ensures edit { IfOk result
        (λ op. IsTreeEdit op (D.items manifest.now) (continued thread.now new_blip.now (thread_tree (D.items manifest.now)))) }
    ensures new { OnOk result (is_taken new_blip.now (thread_tree (D.items manifest.now)) ≡ false) }
    ensures refused { IfErr result (IsNextRefused (D.items manifest.now) thread.now new_blip.now) }
{
    let Some(found) = find(manifest, Want::OfThread, thread) else {
        return Err(no_blip(alloc, thread));
    };
    if is_taken(manifest, new_blip) {
        return Err(taken_id(alloc, new_blip));
    }
    let contents = next_contents(alloc, new_blip)?;
    match append(alloc, manifest, &found, &contents) {
        Ok(op) => Ok(op),
        Err(fault) => Err(fault),
    }
}

// The root thread goes on.
fn continue_root<D: Items>(
    alloc: Global,
    manifest: &D,
    new_blip: &str,
) -> Result<DocOp, ConversationFault>
    requires { Balanced (D.items manifest.now) }
    ensures edit { IfOk result
        (λ op. IsTreeEdit op (D.items manifest.now) (continued [] new_blip.now (thread_tree (D.items manifest.now)))) }
    ensures new { OnOk result (is_taken new_blip.now (thread_tree (D.items manifest.now)) ≡ false) }
    ensures refused { IfErr result (IsNextRefused (D.items manifest.now) [] new_blip.now) }
{
    if is_taken(manifest, new_blip) {
        return Err(taken_id(alloc, new_blip));
    }
    let Some(found) = find_root(manifest) else {
        return begin(alloc, manifest, new_blip);
    };
    let contents = next_contents(alloc, new_blip)?;
    match append(alloc, manifest, &found, &contents) {
        Ok(op) => Ok(op),
        Err(fault) => Err(fault),
    }
}

// The conversation begins, with one blip.
fn begin<D: Items>(alloc: Global, manifest: &D, new_blip: &str) -> Result<DocOp, ConversationFault>
    requires { IsRootless (D.items manifest.now) }
    ensures edit { IfOk result
        (λ op. IsTreeEdit op (D.items manifest.now) (continued [] new_blip.now (thread_tree (D.items manifest.now)))) }
    ensures refused { IfErr result (IsAppendFault (length (D.items manifest.now) + 4)) }
{
    let contents = first_contents(alloc, new_blip)?;
    match insert_contents(alloc, manifest, manifest.len(), &contents) {
        Ok(op) => Ok(op),
        Err(BuildFault::CountTooLarge) => Err(ConversationFault::CountTooLarge),
        Err(BuildFault::Memory) => Err(ConversationFault::Memory),
        Err(_) => unreachable!(),
    }
}
